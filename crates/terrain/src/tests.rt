use crate::{Scratch, fill_sheet};
use flood::Entry;
use marks::{Height, Mark, Refusal};
use sheets::{Raster, Sheet, WritableSheet};

// Slices to work in, each of its own length.
fn fill_with<S: Sheet, T: WritableSheet<Mark = S::Mark>>(
    source: &S,
    target: &mut T,
    marks: &mut [S::Mark],
    levels: &mut [Option<S::Mark>],
    heap: &mut [Entry<S::Mark>],
) -> Result<usize, Refusal> {
    let mut origins = [None; 3];
    let mut scratch = Scratch {
        marks,
        levels,
        origins: &mut origins,
        heap,
    };
    fill_sheet(source, target, &mut scratch)
}

// Fills a row of three marks into a target of so many columns.
fn fill_row<M: Mark>(
    from: &mut [M],
    cols: usize,
    to: &mut [M],
    marks: &mut [M],
    levels: &mut [Option<M>],
    heap: &mut [Entry<M>],
) -> Result<usize, Refusal> {
    let source = Raster::new(1, 3, from)?;
    let mut target = Raster::new(1, cols, to)?;
    fill_with(&source, &mut target, marks, levels, heap)
}

// Just enough is accepted, one less or another side is refused.
#[test]
fn scratch_and_sides(rt: HostRuntime) {
    let void = Height::void();
    let entry = Entry {
        level: void,
        node: 0,
        origin: 0,
    };
    let mut from = [void; 3];
    let mut to = [void; 3];
    let mut small = [void; 2];
    let mut marks = [void; 3];
    let mut levels = [None; 3];
    let mut few_levels = [None; 2];
    let mut heap = [entry; 3];
    let mut small_heap = [entry; 2];
    assert_eq!(rt;
        fill_row(&mut from, 3, &mut to, &mut marks, &mut levels, &mut heap),
        Ok(0)
    );
    assert_eq!(rt;
        fill_row(&mut from, 2, &mut small, &mut marks, &mut levels, &mut heap),
        Err(Refusal::Outside)
    );
    assert_eq!(rt;
        fill_row(&mut from, 3, &mut to, &mut small, &mut levels, &mut heap),
        Err(Refusal::ScratchShort)
    );
    assert_eq!(rt;
        fill_row(
            &mut from,
            3,
            &mut to,
            &mut marks,
            &mut few_levels,
            &mut heap,
        ),
        Err(Refusal::ScratchShort)
    );
    assert_eq!(rt;
        fill_row(
            &mut from,
            3,
            &mut to,
            &mut marks,
            &mut levels,
            &mut small_heap,
        ),
        Err(Refusal::ScratchShort)
    );
}
