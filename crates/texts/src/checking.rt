// Whether bytes are the text of a sheet.
ghost use Rattle.marks.specs.Refusals.{told, answered};
ghost use Rattle.texts.specs.Texts.{CheckTold, OneTextOneSheet};

use crate::reading::read_sheet;
use marks::{CodedMark, Refusal};
use sheets::Sides;

// The sides of the sheet whose text the bytes are; refused by 8 if they are no sheet's text, at the length of the
// longest beginning that they share with the text of any sheet of the kind.
pub fn check_text<M: CodedMark>(bytes: &[u8]) -> Result<Sides, Refusal>
    ensures told { CheckTold M.Spelled.named M.Spelled.spelled bytes.now (answered (λ s. (s.rows, s.cols)) (told result)) }
    ensures unique { OneTextOneSheet M.Spelled.named M.Spelled.spelled }
{
    let head = read_sheet::<M>(bytes).map_err(Refusal::Text)?;
    if head.end < bytes.len() {
        return Err(Refusal::Text(head.end));
    }
    Ok(head.sides)
}
