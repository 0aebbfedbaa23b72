// The marks of a text, in memory.
ghost use Rattle.std.specs.Prelude.{◌≡◌, ◌*◌, ◌⊎◌, true, length, MatchResult};
ghost use Rattle.marks.specs.declared.refusal.Refusal.TheVariants.{DeadCell, NoMemory};
ghost use Rattle.terrain.specs.Fills.{dead_in};
ghost use Rattle.brackets.specs.Cells.{in_text};
ghost use Rattle.brackets.specs.Decoded.{Decoded, Decodes};

use crate::cells::fill;
use crate::parts::{next_line, skip_parts};
use marks::{CodedMark, Refusal};
use sheets::Sides;
use std::alloc::Global;

// Puts the marks of a text's rows into a slice of their size, row by row; refused by 7 at the first cell that is dead.
fn decode_rows<M: CodedMark>(bytes: &[u8], sides: Sides, marks: &mut [M]) -> Result<(), Refusal>
    requires { length marks.old ≡ sides.rows * sides.cols }
    ensures { MatchResult result (λ _. Decodes (in_text M.CodedMark.decoded M.Spelled.spelled sides.rows sides.cols bytes.now) sides.rows marks.new) (λ e. (e ≡ DeadCell) × (dead_in (in_text M.CodedMark.decoded M.Spelled.spelled sides.rows sides.cols bytes.now) ≡ true)) }
{
    let Sides { rows, cols } = sides;
    let mut rest = bytes;
    for i in 0..rows {
        rest = next_line(rest);
        let start = i * cols;
        fill::<M>(skip_parts(rest, 2), &mut marks[start..start + cols])?;
    }
    Ok(())
}

// The marks that a text says of so many rows and columns, row by row, read once; refused by 7 if a cell there is dead.
pub fn text_marks<M: CodedMark>(heap: Global, bytes: &[u8], sides: Sides) -> Result<Vec<M>, Refusal>
    ensures { MatchResult result (λ v. Decoded (in_text M.CodedMark.decoded M.Spelled.spelled sides.rows sides.cols bytes.now) v.items) (λ e. (e ≡ NoMemory) ⊎ ((e ≡ DeadCell) × (dead_in (in_text M.CodedMark.decoded M.Spelled.spelled sides.rows sides.cols bytes.now) ≡ true))) }
{
    let mut marks = vec![in heap; M::void(); sides.cells()]?;
    decode_rows(bytes, sides, marks.as_mut_slice())?;
    Ok(marks)
}
