// What is flooded.
use crate::memory::Memory;
use crate::ring::Ring;
use flood::flood;
use marks::{Height, Refusal};
use terrain::flood_cells;

// Something that can be flooded.
pub(crate) trait Subject {
    fn flood(&self, memory: &mut Memory) -> Result<(), Refusal>;
}

// The cells of a sheet.
#[derive(Drop)]
pub(crate) struct Cells {
    pub(crate) rows: usize,
    pub(crate) cols: usize,
    pub(crate) marks: Vec<Height>,
}

impl Subject for Cells {
    fn flood(&self, memory: &mut Memory) -> Result<(), Refusal> {
        flood_cells(
            self.rows,
            self.cols,
            self.marks.as_slice(),
            memory.levels.as_mut_slice(),
            memory.origins.as_mut_slice(),
            memory.slots.as_mut_slice(),
        )
    }
}

// A ring: the levels of its near crossings, and then those of its wide ones.
#[derive(Drop)]
pub(crate) struct Chords {
    pub(crate) nodes: usize,
    pub(crate) outlets: usize,
    pub(crate) near: usize,
    pub(crate) wide: usize,
    pub(crate) levels: Vec<Height>,
}

impl Subject for Chords {
    fn flood(&self, memory: &mut Memory) -> Result<(), Refusal> {
        let (near_levels, wide_levels) = self.levels.as_slice().split_at(self.levels.len() / 2);
        let ring = Ring {
            nodes: self.nodes,
            outlets: self.outlets,
            near: self.near,
            wide: self.wide,
            near_levels,
            wide_levels,
        };
        flood(
            &ring,
            memory.levels.as_mut_slice(),
            memory.origins.as_mut_slice(),
            memory.slots.as_mut_slice(),
        )
    }
}
