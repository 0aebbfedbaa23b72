// Whether tables are long enough.
ghost use Rattle.std.specs.Prelude.{◌≡◌};
ghost use Rattle.tiles.specs.Plans.{plan_of};
ghost use Rattle.tables.specs.Checks.{tables_short};

use tiles::CutList;

// Whether tables of so many mouths and passes lack a record for some mouth or some pass.
pub fn tables_short(cuts: &CutList, mouths: usize, passes: usize) -> bool
    ensures { result ≡ tables_short (plan_of cuts.now) mouths passes }
{
    mouths < cuts.mouths() || passes < cuts.passes()
}
