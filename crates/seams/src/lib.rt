// What the tiled way of filling a sheet rests on, with no program in it: each function here states one theorem, of every
// kind of mark.
#![tactic(auto)]

ghost use Rattle.seams.specs.Theorems.{SurveysEnd, MouthsSettle, LevelsFinish, TilesFill};
ghost use Rattle.terrain.specs.Terrains.{kind_of};

use marks::Mark;

// Survey: the passes kept by rising levels are a tree of their tile.
pub fn surveys_end<M: Mark>()
    ensures { SurveysEnd (kind_of M.Order M.Mark.lowest) }
{}

// Settle: a mouth's least worst level over the graph of the mouths is its sill in the sheet.
pub fn mouths_settle<M: Mark>()
    ensures { MouthsSettle (kind_of M.Order M.Mark.lowest) }
{}

// Finish: a cell's sill is the higher of its level in its tile and its origin's sill.
pub fn levels_finish<M: Mark>()
    ensures { LevelsFinish (kind_of M.Order M.Mark.lowest) }
{}

// The whole way: from the levels and origins of the tiles and the least worst levels of the mouths, the sill of every cell.
pub fn tiles_fill<M: Mark>()
    ensures { TilesFill (kind_of M.Order M.Mark.lowest) }
{}
