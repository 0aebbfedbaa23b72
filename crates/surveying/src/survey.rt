// The survey of one tile.
ghost use Rattle.std.specs.Prelude.{◌≡◌, ◌-◌, ◌<◌, false, [], ◌∷◌, length};
ghost use Rattle.marks.specs.Refusals.{told, checked};
ghost use Rattle.flood.specs.Calls.{short};
ghost use Rattle.terrain.specs.Terrains.{kind_of};
ghost use Rattle.tiles.specs.Plans.{plan_of, area_of, tiles, tile_at, height, width};
ghost use Rattle.tiles.specs.Mouths.{border, tile_mouths};
ghost use Rattle.tables.specs.Checks.{tables_short};
ghost use Rattle.tables.specs.Records.{tables};
ghost use Rattle.seams.specs.Surveys.{tile_cells};
ghost use Rattle.surveying.specs.Blocks.{dead_in};
ghost use Rattle.surveying.specs.Checks.{other_sides, work_short, survey_told};
ghost use Rattle.surveying.specs.Surveyed.{SurveyLeaves, ScratchLeft, SameLoans};
ghost use Rattle.surveying.specs.Turns.{cells_of};

use crate::blocks::{flood_block, keep_marks};
use crate::flooded::FloodedBlock;
use crate::scratch::SurveyScratch;
use marks::Refusal;
use sheets::Sheet;
use tables::{MouthRecord, PassRecord, tables_short};
use tiles::{Block, CutList};

// Whether a slice lent to work in has fewer places than the cells or the mouths of a block need.
fn is_short<M>(block: &Block, scratch: &SurveyScratch<M>) -> bool
    ensures { result ≡ work_short (cells_of (area_of block.now)) (border (height (area_of block.now)) (width (area_of block.now))) scratch.now }
{
    let cells = block.height() * block.width();
    scratch.marks.len() < cells
        || scratch.levels.len() < cells
        || scratch.origins.len() < cells
        || scratch.heap.len() < cells
        || scratch.joins.len() < block.mouths()
}

// Surveys a tile with slices of its size; refused only where one of its cells is dead.
fn chart<S: Sheet>(
    cuts: &CutList,
    source: &S,
    tile: usize,
    mouths: &mut [MouthRecord<S::Mark>],
    passes: &mut [PassRecord<S::Mark>],
    scratch: SurveyScratch<S::Mark>,
) -> Result<usize, Refusal>
    requires tile { tile < tiles (plan_of cuts.now) }
    requires tables { tables_short (plan_of cuts.now) (length mouths.old) (length passes.old) ≡ false }
    requires sides { other_sides (plan_of cuts.now) (S.Sheet.meaning source.now) ≡ false }
    requires marks { length scratch.marks.now ≡ tile_cells (plan_of cuts.now) tile }
    requires room { short (tile_cells (plan_of cuts.now) tile) scratch.levels.now scratch.origins.now scratch.heap.now ≡ false }
    requires labels { length scratch.joins.now ≡ tile_mouths (plan_of cuts.now) tile }
    ensures told { told result ≡ checked ((dead_in (S.Sheet.meaning source.now) (tile_at (plan_of cuts.now) tile), 7) ∷ []) (tile_mouths (plan_of cuts.now) tile - 1) }
    ensures leaves { SurveyLeaves (kind_of S.Mark.Order S.Mark.Mark.lowest) (S.Sheet.meaning source.now) (plan_of cuts.now) tile (tables mouths.old passes.old) (tables mouths.new passes.new) result }
{
    let SurveyScratch {
        marks,
        levels,
        origins,
        heap,
        joins,
    } = scratch;
    let block = cuts.tile(tile)?;
    let first = cuts.first_mouth(tile)?;
    flood_block(source, &block, marks, levels, origins, heap)?;
    keep_marks(&block, marks, first, mouths);
    let flooded = FloodedBlock {
        block,
        levels,
        origins,
    };
    let count = flooded.link_at(heap, first, joins, passes, first - tile);
    Ok(count)
}

// Surveys one tile of a sheet: keeps its mouths' marks and a tree of passes over its mouths in two tables, and changes no
// other tile's records. Answers how many passes the tile has, one fewer than mouths.
pub fn survey_tile<S: Sheet>(
    cuts: &CutList,
    source: &S,
    tile: usize,
    mouths: &mut [MouthRecord<S::Mark>],
    passes: &mut [PassRecord<S::Mark>],
    scratch: &mut SurveyScratch<S::Mark>,
) -> Result<usize, Refusal>
    ensures told { told result ≡ survey_told (plan_of cuts.now) (S.Sheet.meaning source.now) tile (length mouths.old) (length passes.old) scratch.old }
    ensures leaves { SurveyLeaves (kind_of S.Mark.Order S.Mark.Mark.lowest) (S.Sheet.meaning source.now) (plan_of cuts.now) tile (tables mouths.old passes.old) (tables mouths.new passes.new) result }
    ensures scratch { ScratchLeft scratch.old scratch.new result }
    ensures loans { SameLoans scratch.old scratch.new }
{
    let block = cuts.tile(tile)?;
    if tables_short(cuts, mouths.len(), passes.len()) {
        return Err(Refusal::WrongLength);
    }
    if source.sides() != cuts.sides() {
        return Err(Refusal::Outside);
    }
    if is_short(&block, scratch) {
        return Err(Refusal::ScratchShort);
    }
    let cells = block.height() * block.width();
    let SurveyScratch {
        marks,
        levels,
        origins,
        heap,
        joins,
    } = scratch;
    let scratch = SurveyScratch {
        marks: &mut marks[..cells],
        levels,
        origins,
        heap,
        joins: &mut joins[..block.mouths()],
    };
    chart(cuts, source, tile, mouths, passes, scratch)
}
