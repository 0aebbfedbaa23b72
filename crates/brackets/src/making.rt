// Making a sheet of a text, and reading it.
ghost use Rattle.std.specs.Prelude.{◌≡◌, MatchResult};
ghost use Rattle.marks.specs.Refusals.{told, answered};
ghost use Rattle.marks.specs.declared.refusal.Refusal.TheVariants.{NoMemory};
ghost use Rattle.brackets.specs.Lines.{row_starts};
ghost use Rattle.brackets.specs.Cells.{in_text, TextTold};

use crate::cells::{fill, readable};
use crate::parts::{next_line, skip_parts};
use crate::text::Text;
use marks::{CodedMark, Refusal};
use sheets::{Sheet, Sides};
use std::alloc::Global;
use std::marker::PhantomData;
use texts::check_text;

// The places at which the rows of a text begin.
fn row_starts(heap: Global, bytes: &[u8], rows: usize) -> Result<Vec<usize>, Refusal>
    ensures { MatchResult result (λ v. v.items ≡ row_starts rows bytes.now) (λ e. e ≡ NoMemory) }
{
    let mut starts = Vec::new(heap);
    let mut rest = bytes;
    for k in 0..rows {
        rest = next_line(rest);
        starts.push(bytes.len() - rest.len())?;
    }
    Ok(starts)
}

impl<'a, M: CodedMark> Text<'a, M> {
    // The sheet whose text the bytes are; refused by 8 if they are no sheet's text.
    pub fn new(heap: Global, bytes: &'a [u8]) -> Result<Text<'a, M>, Refusal>
        ensures { TextTold M.Spelled.named M.Spelled.spelled bytes.now (answered (λ s. in_text M.CodedMark.decoded M.Spelled.spelled s.sides.rows s.sides.cols s.bytes.now) (told result)) }
    {
        let sides = check_text::<M>(bytes)?;
        let starts = row_starts(heap, bytes, sides.rows)?;
        Ok(Text {
            sides,
            bytes,
            starts,
            kind: PhantomData,
        })
    }
}

impl<'a, M: CodedMark> Sheet for Text<'a, M> {
    type Mark = M;

    ghost meaning = { λ s. in_text M.CodedMark.decoded M.Spelled.spelled s.sides.rows s.sides.cols s.bytes.now };

    ghost sided = { λ s. record { rows = s.sides.rows_side; cols = s.sides.cols_side } };

    fn sides(&self) -> Sides {
        self.sides
    }

    // The whole run is looked at before any of it is handed out.
    fn read(&self, row: usize, col: usize, out: &mut [M]) -> Result<(), Refusal> {
        let len = out.len();
        self.sides.start_of_run(row, col, len)?;
        let line = &self.bytes[self.starts[row]..];
        let first = skip_parts(line, 2);
        let from = skip_parts(first, col);
        if !readable::<M>(from, len) {
            return Err(Refusal::DeadCell);
        }
        fill::<M>(from, out)
    }
}
