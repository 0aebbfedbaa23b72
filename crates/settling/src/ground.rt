// The ground of all mouths.
ghost use Rattle.std.specs.Prelude.{◌≡◌, ◌≤◌, length, IfOk};
ghost use Rattle.marks.specs.Refusals.{told, answered};
ghost use Rattle.tiles.specs.Plans.{plan_of};
ghost use Rattle.tiles.specs.Mouths.{mouths as all_mouths, passes as all_passes};
ghost use Rattle.tables.specs.Checks.{tables_told};

use marks::Refusal;
use tables::{MouthRecord, PassRecord, tables_short};
use tiles::CutList;

pub mod meaning;

// The mouths of a cut sheet as the nodes of a ground, by what the two tables hold: mouths are joined by the passes of
// their tile, and over seams at the higher of their marks; mouths on the sheet's edge drain at their own.
#[derive(Drop)]
pub struct MouthGround<'a, 'b, M> {
    cuts: CutList,
    mouths: &'a [MouthRecord<M>],
    passes: &'b [PassRecord<M>],
    ghost marked: { all_mouths (plan_of cuts) ≤ length mouths.now },
    ghost passed: { all_passes (plan_of cuts) ≤ length passes.now },
}

impl<'a, 'b, M> MouthGround<'a, 'b, M> {
    // The ground of a cut sheet over tables that have a record for each mouth and each pass.
    pub fn new(
        cuts: CutList,
        mouths: &'a [MouthRecord<M>],
        passes: &'b [PassRecord<M>],
    ) -> Result<MouthGround<'a, 'b, M>, Refusal>
        ensures told { answered (λ _. tt {0}) (told result) ≡ tables_told (plan_of cuts) (length mouths.now) (length passes.now) (tt {0}) }
        ensures made { IfOk result (λ s. (s.cuts ≡ cuts) × (s.mouths.now ≡ mouths.now) × (s.passes.now ≡ passes.now)) }
    {
        if tables_short(&cuts, mouths.len(), passes.len()) {
            return Err(Refusal::WrongLength);
        }
        Ok(MouthGround {
            cuts,
            mouths,
            passes,
        })
    }
}
