// The levels of a sheet's cells.
ghost use Rattle.std.specs.Prelude.{◌≡◌, ℕ, ◌*◌, length};
ghost use Rattle.marks.specs.Refusals.{told};
ghost use Rattle.terrain.specs.Levels.{levels_told, LevelsLeft, OriginsLeft};
ghost use Rattle.terrain.specs.Terrains.{kind_of};

use crate::ground::CellGround;
use flood::{Entry, flood};
use marks::{Mark, Refusal};

// Floods the cells of a sheet whose marks lie row by row in a slice: each cell's level is its sill, and its origin a cell on
// the edge to which a walk leads of which the worst mark is that level.
pub fn flood_cells<M: Mark>(
    rows: usize,
    cols: usize,
    marks: &[M],
    levels: &mut [Option<M>],
    origins: &mut [Option<usize>],
    heap: &mut [Entry<M>],
) -> Result<(), Refusal>
    ensures told { told result ≡ levels_told rows cols (length marks.now) levels.old origins.old heap.old }
    ensures leaves { LevelsLeft (kind_of M.Order M.Mark.lowest) rows cols marks.now levels.old levels.new origins.old origins.new heap.old heap.new result }
    ensures origins { OriginsLeft (kind_of M.Order M.Mark.lowest) rows cols marks.now levels.new origins.new result }
{
    // Any sides may be asked for, and the slices are lent one by one.
    let ground = CellGround::new(rows, cols, marks)?;
    flood(&ground, levels, origins, heap)
}
