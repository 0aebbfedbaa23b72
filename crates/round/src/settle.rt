// Settle: the sills of all mouths.
ghost use Rattle.std.specs.Prelude.{◌≡◌, [], ◌∷◌, length};
ghost use Rattle.marks.specs.Refusals.{told, checked};
ghost use Rattle.terrain.specs.Fills.{scratch_short, ScratchLeft, SameLoans};
ghost use Rattle.terrain.specs.Terrains.{kind_of};
ghost use Rattle.tiles.specs.Plans.{plan_of};
ghost use Rattle.tiles.specs.Mouths.{mouths as all_mouths};
ghost use Rattle.tables.specs.Records.{tables};
ghost use Rattle.settling.specs.Sills.{SettlesSheets};
ghost use Rattle.round.specs.Settles.{settle_told, SettleLeaves};

use crate::calls::Call;
use crate::rounds::{Round, State};
use marks::{Mark, Refusal};
use settling::settle_mouths;
use tables::{MouthRecord, PassRecord, tables_short};
use terrain::{Scratch, is_short};

impl Round {
    // Gives each mouth its level in the ground of mouths as its sill, once every tile is surveyed.
    pub fn settle<M: Mark>(
        &mut self,
        mouths: &mut [MouthRecord<M>],
        passes: &[PassRecord<M>],
        scratch: &mut Scratch<M>,
    ) -> Result<(), Refusal>
        ensures told { told result ≡ settle_told self.old (length mouths.old) (length passes.now) scratch.old }
        ensures leaves { SettleLeaves (kind_of M.Order M.Mark.lowest) self.old self.new (tables mouths.old passes.now) (tables mouths.new passes.now) result }
        ensures sills { SettlesSheets (kind_of M.Order M.Mark.lowest) (plan_of self.old.cuts) (tables mouths.old passes.now) (tables mouths.new passes.now) result }
        ensures scratch { ScratchLeft scratch.old scratch.new result }
        ensures loans { SameLoans scratch.old scratch.new }
    {
        self.decide(Call::Settle)?;
        if tables_short(&self.cuts, mouths.len(), passes.len()) {
            return Err(Refusal::WrongLength);
        }
        if is_short(scratch, self.cuts.mouths()) {
            return Err(Refusal::ScratchShort);
        }
        let Scratch {
            marks: _,
            levels,
            origins,
            heap,
        } = scratch;
        settle_mouths(&self.cuts, mouths, passes, levels, origins, heap)?;
        self.state = State::Settled;
        Ok(())
    }
}
