// Both sides of a sheet and their cuts, which make its tiles.
ghost use Rattle.std.specs.Prelude.{◌≡◌, [], MatchResult};
ghost use Rattle.marks.specs.Refusals.{told, checked, answered};
ghost use Rattle.tiles.specs.Rules.{cut_checks};
ghost use Rattle.tiles.specs.Plans.{plan, plan_of, Lawful};

use crate::division::Division;
use marks::Refusal;
use sheets::Sides;

// How a sheet is cut: its sides, each with the places at which bands begin. Every cut list keeps the rules for cuts.
#[derive(Clone, Copy)]
pub struct CutList {
    pub(crate) rows: Division,
    pub(crate) cols: Division,
}

impl CutList {
    // The sides with the rows and columns at which bands begin; refused if a side or a cut breaks the rules.
    pub fn new(
        rows: usize,
        down: &[usize],
        cols: usize,
        across: &[usize],
    ) -> Result<CutList, Refusal>
        ensures told { answered plan_of (told result) ≡ checked (cut_checks rows down.now cols across.now) (plan rows down.now cols across.now) }
    {
        Sides::new(rows, cols)?;
        let rows = Division::new(rows, down).ok_or(Refusal::CutRule)?;
        let cols = Division::new(cols, across).ok_or(Refusal::CutRule)?;
        Ok(CutList { rows, cols })
    }

    // One cell, uncut.
    pub fn fresh() -> CutList
        ensures { plan_of result ≡ plan 1 [] 1 [] }
    {
        CutList {
            rows: Division::fresh(),
            cols: Division::fresh(),
        }
    }

    // Takes new sides and cuts, or refuses them and stays as it was.
    pub fn recut(
        &mut self,
        rows: usize,
        down: &[usize],
        cols: usize,
        across: &[usize],
    ) -> Result<(), Refusal>
        ensures told { told result ≡ checked (cut_checks rows down.now cols across.now) tt }
        ensures leaves { MatchResult result (λ _. plan_of self.new ≡ plan rows down.now cols across.now) (λ _. self.new ≡ self.old) }
    {
        *self = CutList::new(rows, down, cols, across)?;
        Ok(())
    }

    // How many rows and columns the sheet has.
    pub fn sides(&self) -> Sides
        ensures rules { Lawful (plan_of self.now) }
        ensures rows { result.rows ≡ (plan_of self.now).rows }
        ensures cols { result.cols ≡ (plan_of self.now).cols }
    {
        Sides {
            rows: self.rows.side,
            cols: self.cols.side,
        }
    }

    // The rows at which bands begin, but for the first.
    pub fn down(&self) -> &[usize]
        ensures { result.now ≡ (plan_of self.now).down }
    {
        &self.rows.cuts[0..self.rows.count]
    }

    // The columns at which bands begin, but for the first.
    pub fn across(&self) -> &[usize]
        ensures { result.now ≡ (plan_of self.now).across }
    {
        &self.cols.cuts[0..self.cols.count]
    }
}

impl Default for CutList {
    ghost is_default = { λ c. plan_of c ≡ plan 1 [] 1 [] };

    fn default() -> CutList {
        CutList::fresh()
    }
}
