// Which calls a round takes.
ghost use Rattle.std.specs.Prelude.{◌≡◌, ℕ, false, [], ◌∷◌, length, IfOk, nat_le};
ghost use Rattle.marks.specs.Refusals.{told, checked, answered};
ghost use Rattle.tiles.specs.Plans.{plan_of, tiles};
ghost use Rattle.tables.specs.Checks.{tables_told};
ghost use Rattle.round.specs.declared.rounds.State.TheVariants.{Open};
ghost use Rattle.round.specs.Rounds.{is_surveyed, tiles_missing, call_checks};

use crate::rounds::{Round, State};
use marks::Refusal;
use tables::{MouthRecord, PassRecord, tables_short};
use tiles::CutList;

// A call on a round.
#[derive(Clone, Copy, PartialEq, Eq, Debug)]
pub enum Call {
    Survey(usize),
    Settle,
    Finish(usize),
}

impl Round {
    // A new round of a cut sheet, in which no tile is surveyed. Its tables must have a record for each mouth and each
    // pass.
    pub fn new<M>(
        cuts: CutList,
        mouths: &[MouthRecord<M>],
        passes: &[PassRecord<M>],
    ) -> Result<Round, Refusal>
        ensures told { answered (λ _. tt {0}) (told result) ≡ tables_told (plan_of cuts) (length mouths.now) (length passes.now) (tt {0}) }
        ensures made { IfOk result (λ s. (s.cuts ≡ cuts) × (s.state ≡ Open) × ((t : ℕ) → is_surveyed s t ≡ false)) }
    {
        if tables_short(&cuts, mouths.len(), passes.len()) {
            return Err(Refusal::WrongLength);
        }
        Ok(Round {
            cuts,
            state: State::Open,
            surveyed: [false; 1024],
        })
    }

    // Whether some tile is not surveyed.
    pub fn tiles_missing(&self) -> bool
        ensures { result ≡ tiles_missing self.now }
    {
        self.surveyed[..self.cuts.tiles()].contains(&false)
    }

    // Whether the round takes a call, by its own state: the one place that decides it.
    pub fn decide(&self, call: Call) -> Result<(), Refusal>
        ensures { told result ≡ checked (call_checks self.now call) tt }
    {
        match (self.state, call) {
            (State::Settled, Call::Survey(_) | Call::Settle) => Err(Refusal::RoundSettled),
            (State::Settled, Call::Finish(tile)) => self.find(tile),
            (State::Open, Call::Survey(tile)) => self.may_survey(tile),
            (State::Open, Call::Settle) => self.may_settle(),
            (State::Open, Call::Finish(_)) => Err(Refusal::RoundOpen),
        }
    }

    // Whether there is such a tile.
    fn find(&self, tile: usize) -> Result<(), Refusal>
        ensures { told result ≡ checked ((nat_le (tiles (plan_of self.now.cuts)) tile, 3) ∷ []) tt }
    {
        if self.cuts.tiles() <= tile {
            return Err(Refusal::NoSuchTile);
        }
        Ok(())
    }

    // Whether there is such a tile that is not surveyed.
    fn may_survey(&self, tile: usize) -> Result<(), Refusal>
        ensures { told result ≡ checked ((nat_le (tiles (plan_of self.now.cuts)) tile, 3) ∷ (is_surveyed self.now tile, 21) ∷ []) tt }
    {
        if self.cuts.tiles() <= tile {
            return Err(Refusal::NoSuchTile);
        }
        if self.surveyed[tile] {
            return Err(Refusal::TileSurveyed);
        }
        Ok(())
    }

    // Whether every tile is surveyed.
    fn may_settle(&self) -> Result<(), Refusal>
        ensures { told result ≡ checked ((tiles_missing self.now, 23) ∷ []) tt }
    {
        if self.tiles_missing() {
            return Err(Refusal::TilesMissing);
        }
        Ok(())
    }
}
