// Surveys with tables and scratch of chosen lengths.
use flood::Entry;
use marks::{Mark, Refusal};
use sheets::Sheet;
use std::alloc::Global;
use surveying::{SurveyScratch, survey_tile};
use tables::{MouthRecord, PassRecord};
use tiles::CutList;

// How many places of each table and of each kind of scratch are lent.
#[derive(Clone, Copy)]
pub(crate) struct Lent {
    pub(crate) mouths: usize,
    pub(crate) passes: usize,
    pub(crate) marks: usize,
    pub(crate) levels: usize,
    pub(crate) origins: usize,
    pub(crate) heap: usize,
    pub(crate) joins: usize,
}

impl Lent {
    // Scratch with so many places for cells, and so many for mouths; a table of 21 mouths and one of 19 passes.
    pub(crate) fn of(cells: usize, mouths: usize) -> Lent {
        Lent {
            mouths: 21,
            passes: 19,
            marks: cells,
            levels: cells,
            origins: cells,
            heap: cells,
            joins: mouths,
        }
    }
}

// The first places of a slice.
fn part<T>(slice: &mut [T], len: usize) -> Result<&mut [T], Refusal> {
    slice.get_mut(..len).ok_or(Refusal::Size)
}

// A survey with tables and slices of these lengths, which are 12 at most for scratch.
pub(crate) fn survey<S: Sheet>(
    alloc: Global,
    cuts: &CutList,
    source: &S,
    tile: usize,
    mouths: &mut [MouthRecord<S::Mark>],
    passes: &mut [PassRecord<S::Mark>],
    lent: Lent,
) -> Result<usize, Refusal> {
    let void = S::Mark::void();
    let entry = Entry {
        level: void,
        node: 0,
        origin: 0,
    };
    let mut marks = vec![in alloc; void; 12]?;
    let mut levels = vec![in alloc; None; 12]?;
    let mut origins = vec![in alloc; None; 12]?;
    let mut heap = vec![in alloc; entry; 12]?;
    let mut joins = vec![in alloc; 0; 12]?;
    let mouths = part(mouths, lent.mouths)?;
    let passes = part(passes, lent.passes)?;
    let mut scratch = SurveyScratch {
        marks: part(marks.as_mut_slice(), lent.marks)?,
        levels: part(levels.as_mut_slice(), lent.levels)?,
        origins: part(origins.as_mut_slice(), lent.origins)?,
        heap: part(heap.as_mut_slice(), lent.heap)?,
        joins: part(joins.as_mut_slice(), lent.joins)?,
    };
    survey_tile(cuts, source, tile, mouths, passes, &mut scratch)
}
