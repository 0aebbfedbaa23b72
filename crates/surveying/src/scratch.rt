// Memory that a survey is lent to work in.
use flood::Entry;

// Slices of marks, levels, origins and heap entries, a place for each cell of the tile, and of labels, a place for each of
// its mouths. Each has a lifetime of its own. No `Scratch` of a fill with `joins` beside it: of a struct in a struct the check
// forgets whose slices it holds.
#[derive(Drop)]
pub struct SurveyScratch<'a, 'b, 'c, 'd, 'e, M> {
    pub marks: &'a mut [M],
    pub levels: &'b mut [Option<M>],
    pub origins: &'c mut [Option<usize>],
    pub heap: &'d mut [Entry<M>],
    pub joins: &'e mut [usize],
}
