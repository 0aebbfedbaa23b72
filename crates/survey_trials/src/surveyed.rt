// What any survey must leave, worked out by hand. Which tree of passes it finds is free: its levels are not.
use crate::lent::{Lent, survey};
use marks::{Class, Height, Mark, Refusal};
use sheets::{Packed, Raster};
use std::process::Abort;
use std::test::Fail;
use tables::{MouthRecord, PassRecord};
use tiles::CutList;

// Decimetres as a height, which the tests write only where they are one. No crate can use another's helpers of tests.
fn height(dm: i16) -> Result<Height, Fail> {
    Ok(Height::new(dm).ok_or("no height")?)
}

// A table of mouths that no survey has written.
fn blank_mouths<M: Mark>() -> [MouthRecord<M>; 21] {
    let void = M::void();
    [MouthRecord {
        mark: void,
        sill: Some(void),
    }; 21]
}

// A table of passes that no survey has written.
fn blank_passes<M: Mark>() -> [PassRecord<M>; 19] {
    [PassRecord {
        from: 77,
        to: 77,
        level: M::void(),
    }; 19]
}

// The mouths have these marks, and no sill.
fn marked(rt: &impl Abort, mouths: &[MouthRecord<Height>], marks: &[i16]) -> Result<(), Fail> {
    assert_eq!(rt; mouths.len(), marks.len());
    for (mouth, dm) in mouths.iter().zip(marks.iter()) {
        assert_eq!(rt; mouth.mark, height(*dm)?);
        assert_eq!(rt; mouth.sill, None);
    }
    Ok(())
}

// No mouth was written.
fn blank(rt: &impl Abort, mouths: &[MouthRecord<Height>]) {
    for mouth in mouths {
        assert_eq!(rt; mouth.sill, Some(Height::void()));
    }
}

// No pass was written.
fn unlinked(rt: &impl Abort, passes: &[PassRecord<Height>]) {
    for pass in passes {
        assert_eq!(rt; pass.from, 77);
    }
}

// How many passes have this level.
fn at_level(passes: &[PassRecord<Height>], dm: i16) -> usize {
    passes
        .iter()
        .filter(|pass| pass.level.decimetres() == Some(dm))
        .count()
}

// Some pass at this level joins these two mouths, in either direction.
fn joins(passes: &[PassRecord<Height>], dm: i16, a: usize, b: usize) -> bool {
    passes.iter().any(|pass| {
        pass.level.decimetres() == Some(dm)
            && (pass.from == a && pass.to == b || pass.from == b && pass.to == a)
    })
}

// Of a sheet of 4 rows and 6 columns, cut at column 3:
//   9 9 9 | 9 9 9
//   9 2 3 | 8 1 9
//   9 4 2 | 7 1 5
//   9 9 9 | 9 9 9
fn cells() -> Result<[Height; 24], Fail> {
    let mut cells = [height(9)?; 24];
    cells[7] = height(2)?;
    cells[8] = height(3)?;
    cells[9] = height(8)?;
    cells[10] = height(1)?;
    cells[13] = height(4)?;
    cells[14] = height(2)?;
    cells[15] = height(7)?;
    cells[16] = height(1)?;
    cells[17] = height(5)?;
    Ok(cells)
}

#[test]
fn the_right_tile(rt: HostRuntime) -> Result<(), Fail> {
    let mut cells = cells()?;
    let source = Raster::new(4, 6, &mut cells)?;
    let cuts = CutList::new(4, &[], 6, &[3])?;
    let mut mouths = blank_mouths();
    let mut passes = blank_passes();
    assert_eq!(rt;
        survey(
            rt.alloc(),
            &cuts,
            &source,
            1,
            &mut mouths,
            &mut passes,
            Lent::of(12, 10),
        ),
        Ok(9)
    );
    blank(&rt, &mouths[0..10]);
    marked(&rt, &mouths[10..20], &[9, 9, 9, 8, 9, 7, 5, 9, 9, 9])?;
    blank(&rt, &mouths[20..21]);
    unlinked(&rt, &passes[0..9]);
    unlinked(&rt, &passes[18..19]);
    // The hollow between reaches the mouth of 5, then that of 7, then that of 8.
    assert!(rt; joins(&passes[9..18], 7, 15, 16));
    assert!(rt; joins(&passes[9..18], 8, 13, 15) || joins(&passes[9..18], 8, 13, 16));
    assert_eq!(rt; at_level(&passes[9..18], 9), 7);
    Ok(())
}

#[test]
fn the_left_tile(rt: HostRuntime) -> Result<(), Fail> {
    let mut cells = cells()?;
    let source = Raster::new(4, 6, &mut cells)?;
    let cuts = CutList::new(4, &[], 6, &[3])?;
    let mut mouths = blank_mouths();
    let mut passes = blank_passes();
    assert_eq!(rt;
        survey(
            rt.alloc(),
            &cuts,
            &source,
            0,
            &mut mouths,
            &mut passes,
            Lent::of(12, 12),
        ),
        Ok(9)
    );
    marked(&rt, &mouths[0..10], &[9, 9, 9, 9, 3, 9, 2, 9, 9, 9])?;
    blank(&rt, &mouths[10..21]);
    assert!(rt; joins(&passes[0..9], 3, 4, 6));
    assert_eq!(rt; at_level(&passes[0..9], 9), 8);
    unlinked(&rt, &passes[9..19]);
    Ok(())
}

#[test]
fn lines(rt: HostRuntime) -> Result<(), Fail> {
    let mut row = [height(5)?, height(1)?, height(4)?];
    let source = Raster::new(1, 3, &mut row)?;
    let cuts = CutList::new(1, &[], 3, &[])?;
    let mut mouths = blank_mouths();
    let mut passes = blank_passes();
    assert_eq!(rt;
        survey(
            rt.alloc(),
            &cuts,
            &source,
            0,
            &mut mouths,
            &mut passes,
            Lent::of(3, 3)
        ),
        Ok(2)
    );
    marked(&rt, &mouths[0..3], &[5, 1, 4])?;
    assert!(rt; joins(&passes[0..2], 5, 0, 1) && joins(&passes[0..2], 4, 1, 2));
    unlinked(&rt, &passes[2..19]);
    Ok(())
}

#[test]
fn columns(rt: HostRuntime) -> Result<(), Fail> {
    let mut column = [height(2)?, height(7)?, height(3)?];
    let source = Raster::new(3, 1, &mut column)?;
    let cuts = CutList::new(3, &[2], 1, &[])?;
    let mut mouths = blank_mouths();
    let mut passes = blank_passes();
    assert_eq!(rt;
        survey(
            rt.alloc(),
            &cuts,
            &source,
            1,
            &mut mouths,
            &mut passes,
            Lent::of(1, 1)
        ),
        Ok(0)
    );
    blank(&rt, &mouths[0..2]);
    marked(&rt, &mouths[2..3], &[3])?;
    unlinked(&rt, &passes);
    assert_eq!(rt;
        survey(
            rt.alloc(),
            &cuts,
            &source,
            0,
            &mut mouths,
            &mut passes,
            Lent::of(2, 2)
        ),
        Ok(1)
    );
    marked(&rt, &mouths[0..3], &[2, 7, 3])?;
    assert!(rt; joins(&passes[0..1], 7, 0, 1));
    Ok(())
}

// Each check comes before those after it, and a refused survey leaves the tables as they were.
#[test]
fn refused_in_order(rt: HostRuntime) -> Result<(), Fail> {
    let mut cells = cells()?;
    let source = Raster::new(4, 6, &mut cells)?;
    let cuts = CutList::new(4, &[], 6, &[3])?;
    // 18 mouths and 16 passes.
    let other = CutList::new(4, &[], 5, &[3])?;
    let mut mouths = blank_mouths();
    let mut passes = blank_passes();
    let none = Lent::of(0, 0);
    let few = Lent { mouths: 17, ..none };
    assert_eq!(rt;
        survey(
            rt.alloc(),
            &other,
            &source,
            2,
            &mut mouths,
            &mut passes,
            few
        ),
        Err(Refusal::NoSuchTile)
    );
    assert_eq!(rt;
        survey(
            rt.alloc(),
            &other,
            &source,
            1,
            &mut mouths,
            &mut passes,
            few
        ),
        Err(Refusal::WrongLength)
    );
    assert_eq!(rt;
        survey(
            rt.alloc(),
            &cuts,
            &source,
            1,
            &mut mouths,
            &mut passes,
            Lent { passes: 17, ..none },
        ),
        Err(Refusal::WrongLength)
    );
    assert_eq!(rt;
        survey(
            rt.alloc(),
            &other,
            &source,
            1,
            &mut mouths,
            &mut passes,
            Lent {
                mouths: 18,
                passes: 16,
                ..none
            },
        ),
        Err(Refusal::Outside)
    );
    assert_eq!(rt;
        survey(
            rt.alloc(),
            &cuts,
            &source,
            1,
            &mut mouths,
            &mut passes,
            Lent::of(11, 10),
        ),
        Err(Refusal::ScratchShort)
    );
    assert_eq!(rt;
        survey(
            rt.alloc(),
            &cuts,
            &source,
            1,
            &mut mouths,
            &mut passes,
            Lent::of(12, 9)
        ),
        Err(Refusal::ScratchShort)
    );
    blank(&rt, &mouths);
    unlinked(&rt, &passes);
    Ok(())
}

// One place too few of any kind of scratch.
#[test]
fn short_scratch(rt: HostRuntime) -> Result<(), Fail> {
    let mut row = [height(5)?, height(1)?, height(4)?];
    let source = Raster::new(1, 3, &mut row)?;
    let cuts = CutList::new(1, &[], 3, &[])?;
    let mut mouths = blank_mouths();
    let mut passes = blank_passes();
    let full = Lent::of(3, 3);
    let short = Err(Refusal::ScratchShort);
    let lent = Lent { marks: 2, ..full };
    assert_eq!(rt;
        survey(
            rt.alloc(),
            &cuts,
            &source,
            0,
            &mut mouths,
            &mut passes,
            lent
        ),
        short
    );
    let lent = Lent { levels: 2, ..full };
    assert_eq!(rt;
        survey(
            rt.alloc(),
            &cuts,
            &source,
            0,
            &mut mouths,
            &mut passes,
            lent
        ),
        short
    );
    let lent = Lent { origins: 2, ..full };
    assert_eq!(rt;
        survey(
            rt.alloc(),
            &cuts,
            &source,
            0,
            &mut mouths,
            &mut passes,
            lent
        ),
        short
    );
    let lent = Lent { heap: 2, ..full };
    assert_eq!(rt;
        survey(
            rt.alloc(),
            &cuts,
            &source,
            0,
            &mut mouths,
            &mut passes,
            lent
        ),
        short
    );
    blank(&rt, &mouths);
    unlinked(&rt, &passes);
    assert_eq!(rt;
        survey(
            rt.alloc(),
            &cuts,
            &source,
            0,
            &mut mouths,
            &mut passes,
            Lent {
                mouths: 3,
                passes: 2,
                ..full
            },
        ),
        Ok(2)
    );
    Ok(())
}

// A row of care classes in bytes: strip, kept, open. Code 7 is no class's, so a cell that has it is dead.
#[test]
fn packed_and_dead(rt: HostRuntime) -> Result<(), Fail> {
    let cuts = CutList::new(1, &[], 3, &[])?;
    let kind = Class::Void;
    let mut mouths = blank_mouths();
    let mut passes = blank_passes();
    let mut dead = [0, 2, 0, 6, 0, 7];
    let source = Packed::new(1, 3, &kind, &mut dead)?;
    assert_eq!(rt;
        survey(
            rt.alloc(),
            &cuts,
            &source,
            0,
            &mut mouths,
            &mut passes,
            Lent::of(3, 3)
        ),
        Err(Refusal::DeadCell)
    );
    assert_eq!(rt; mouths[0].sill, Some(Class::Void));
    assert_eq!(rt; passes[0].from, 77);
    let mut bytes = [0, 2, 0, 6, 0, 1];
    let source = Packed::new(1, 3, &kind, &mut bytes)?;
    assert_eq!(rt;
        survey(
            rt.alloc(),
            &cuts,
            &source,
            0,
            &mut mouths,
            &mut passes,
            Lent::of(3, 3)
        ),
        Ok(2)
    );
    assert_eq!(rt; mouths[0].mark, Class::Strip);
    assert_eq!(rt; mouths[2].mark, Class::Open);
    assert_eq!(rt; mouths[2].sill, None);
    assert_eq!(rt; passes[0].level, Class::Kept);
    assert_eq!(rt; passes[1].level, Class::Kept);
    assert_eq!(rt; passes[2].from, 77);
    Ok(())
}
