// The whole answer.
ghost use Rattle.std.specs.Prelude.{◌≡◌, Ok, vec_items};
ghost use Rattle.marks.specs.Refusals.{told, checked, answered};
ghost use Rattle.tiles.specs.Rules.{cut_checks};
ghost use Rattle.inputs.specs.Cuts.{cuts_of};
ghost use Rattle.inputs.specs.Inputs.{ReadsInput};
ghost use Rattle.answers.specs.Printed.{coded_of};
ghost use Rattle.answers.specs.Answers.{AnsweredAs, Answer};

use crate::filling::print_sheet;
use brackets::text_marks;
use inputs::{Input, read_input};
use marks::{Class, CodedMark, Height, Refusal};
use sheets::{Raster, Sides};
use std::alloc::Global;
use tiles::CutList;

// So many bytes of input are read.
pub const MOST_BYTES: usize = 60_000;

// So many cells are filled.
const MOST_CELLS: usize = 4_096;

// Whether the cuts of an input keep the rules.
fn check_cuts(input: &Input) -> Result<(), Refusal>
    ensures { told result ≡ checked (cut_checks input.now.sides.rows (cuts_of input.now.down) input.now.sides.cols (cuts_of input.now.across)) tt }
{
    CutList::new(
        input.sides.rows,
        input.down.as_slice(),
        input.sides.cols,
        input.across.as_slice(),
    )?;
    Ok(())
}

// The answer to an input of a kind.
fn answer_input<M: CodedMark>(heap: Global, bytes: &[u8], input: Input) -> Result<Vec<u8>, Refusal>
    requires { ReadsInput M.Spelled.named M.Spelled.spelled bytes.now (Ok input) }
    ensures { AnsweredAs (coded_of M.Order M.Mark.lowest M.Spelled) bytes.now (answered vec_items (told result)) }
{
    if input.sides.cells() > MOST_CELLS {
        return Err(Refusal::Size);
    }
    check_cuts(&input)?;
    let Sides { rows, cols } = input.sides;
    let mut marks = text_marks::<M>(heap, &bytes[0..input.end], input.sides)?;
    let source = Raster::new(rows, cols, marks.as_mut_slice())?;
    print_sheet(heap, &source)
}

// The program's answer to its input: what it prints, or why it refuses. A refusal of text is at the later of the places at which
// the bytes part from the inputs of either kind.
pub fn answer(heap: Global, bytes: &[u8]) -> Result<Vec<u8>, Refusal>
    ensures { Answer bytes.now (answered vec_items (told result)) }
{
    if bytes.len() > MOST_BYTES {
        return Err(Refusal::Size);
    }
    match read_input::<Height>(bytes) {
        Ok(input) => answer_input::<Height>(heap, bytes, input),
        Err(first) => match read_input::<Class>(bytes) {
            Ok(input) => answer_input::<Class>(heap, bytes, input),
            Err(second) => Err(Refusal::Text(first.max(second))),
        },
    }
}
