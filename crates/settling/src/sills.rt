// Settling the mouths.
ghost use Rattle.std.specs.Prelude.{◌≡◌, ℕ, ◌<◌, ◌≤◌, [], ◌∷◌, length};
ghost use Rattle.std.specs.List.{slice_get};
ghost use Rattle.marks.specs.Refusals.{told};
ghost use Rattle.flood.specs.Calls.{Leaves};
ghost use Rattle.terrain.specs.Terrains.{kind_of};
ghost use Rattle.tiles.specs.Plans.{plan_of};
ghost use Rattle.tables.specs.Records.{tables};
ghost use Rattle.tables.specs.Links.{mouth_graph};
ghost use Rattle.settling.specs.Sills.{sills_told, SillsLeft, SettlesSheets, ScratchFree};
ghost use Rattle.settling.specs.Grounds.{Kept};

use crate::ground::MouthGround;
use flood::{Entry, flood};
use marks::{Mark, Refusal};
use tables::{MouthRecord, PassRecord};
use tiles::CutList;

// Floods the ground of mouths that two tables stand for. Tables and scratch are lent one by one, as in a flood.
fn flood_mouths<M: Mark>(
    cuts: &CutList,
    mouths: &[MouthRecord<M>],
    passes: &[PassRecord<M>],
    levels: &mut [Option<M>],
    origins: &mut [Option<usize>],
    heap: &mut [Entry<M>],
) -> Result<(), Refusal>
    ensures told { told result ≡ sills_told (plan_of cuts.now) (length mouths.now) (length passes.now) levels.old origins.old heap.old }
    ensures leaves { Leaves (mouth_graph (kind_of M.Order M.Mark.lowest) (plan_of cuts.now) (tables mouths.now passes.now)) result levels.new levels.old origins.new origins.old heap.new heap.old }
{
    let ground = MouthGround::new(*cuts, mouths, passes)?;
    flood(&ground, levels, origins, heap)
}

// Gives the first records of a table their levels as sills.
fn keep_sills<M: Mark>(mouths: &mut [MouthRecord<M>], levels: &[Option<M>], count: usize)
    requires { (count ≤ length mouths.old) × (count ≤ length levels.now) }
    ensures { Kept mouths.old levels.now count mouths.new }
{
    for (k, level) in levels[..count].iter().enumerate() {
        mouths[k].sill = *level;
    }
}

// Gives each mouth its level in the ground of mouths, by what the tables hold, as its sill. The slices of levels,
// origins and heap entries are scratch.
pub fn settle_mouths<M: Mark>(
    cuts: &CutList,
    mouths: &mut [MouthRecord<M>],
    passes: &[PassRecord<M>],
    levels: &mut [Option<M>],
    origins: &mut [Option<usize>],
    heap: &mut [Entry<M>],
) -> Result<(), Refusal>
    ensures told { told result ≡ sills_told (plan_of cuts.now) (length mouths.old) (length passes.now) levels.old origins.old heap.old }
    ensures leaves { SillsLeft (kind_of M.Order M.Mark.lowest) (plan_of cuts.now) (tables mouths.old passes.now) (tables mouths.new passes.now) result }
    ensures sills { SettlesSheets (kind_of M.Order M.Mark.lowest) (plan_of cuts.now) (tables mouths.old passes.now) (tables mouths.new passes.now) result }
    ensures scratch { (ScratchFree levels.old levels.new result) × ((ScratchFree origins.old origins.new result) × (ScratchFree heap.old heap.new result)) }
{
    flood_mouths(cuts, mouths, passes, levels, origins, heap)?;
    keep_sills(mouths, levels, cuts.mouths());
    Ok(())
}
