// A block that was flooded.
ghost use Rattle.std.specs.Prelude.{◌≤◌, length};
ghost use Rattle.tiles.specs.Plans.{area_of};
ghost use Rattle.surveying.specs.Turns.{cells_of};

use tiles::Block;

// A block with the level of each of its cells and the mouth that is its origin, row by row.
#[derive(Drop)]
pub(crate) struct FloodedBlock<'a, 'b, M> {
    pub(crate) block: Block,
    pub(crate) levels: &'a [Option<M>],
    pub(crate) origins: &'b [Option<usize>],
    ghost leveled: { cells_of (area_of block) ≤ length levels.now },
    ghost origined: { cells_of (area_of block) ≤ length origins.now },
}
