// Survey: the records of one tile.
ghost use Rattle.std.specs.Prelude.{◌≡◌, length};
ghost use Rattle.marks.specs.Refusals.{told};
ghost use Rattle.terrain.specs.Terrains.{kind_of};
ghost use Rattle.tables.specs.Records.{tables};
ghost use Rattle.surveying.specs.Surveyed.{ScratchLeft, SameLoans};
ghost use Rattle.round.specs.Surveys.{survey_told, SurveyLeaves};

use crate::calls::Call;
use crate::rounds::Round;
use marks::Refusal;
use sheets::Sheet;
use surveying::{SurveyScratch, survey_tile};
use tables::{MouthRecord, PassRecord};

impl Round {
    // Reads a tile of a sheet, and keeps its mouths' marks and a tree of passes over its mouths. Answers how many passes
    // the tile has.
    pub fn survey<S: Sheet>(
        &mut self,
        source: &S,
        tile: usize,
        mouths: &mut [MouthRecord<S::Mark>],
        passes: &mut [PassRecord<S::Mark>],
        scratch: &mut SurveyScratch<S::Mark>,
    ) -> Result<usize, Refusal>
        ensures told { told result ≡ survey_told self.old (S.Sheet.meaning source.now) tile (length mouths.old) (length passes.old) scratch.old }
        ensures leaves { SurveyLeaves (kind_of S.Mark.Order S.Mark.Mark.lowest) (S.Sheet.meaning source.now) tile self.old self.new (tables mouths.old passes.old) (tables mouths.new passes.new) result }
        ensures scratch { ScratchLeft scratch.old scratch.new result }
        ensures loans { SameLoans scratch.old scratch.new }
    {
        self.decide(Call::Survey(tile))?;
        let count = survey_tile(&self.cuts, source, tile, mouths, passes, scratch)?;
        self.surveyed[tile] = true;
        Ok(count)
    }
}
