// Reading the program's input.
ghost use Rattle.std.specs.Prelude.{◌≡◌};
ghost use Rattle.inputs.specs.Cuts.{cuts_of};
ghost use Rattle.inputs.specs.Inputs.{ReadsInput};

use crate::cuts::Cuts;
use crate::input::Input;
use crate::line::cut_line;
use marks::CodedMark;
use texts::{Cursor, read_sheet};

impl Cuts {
    // The cuts, in their order.
    pub fn as_slice(&self) -> &[usize]
        ensures { result.now ≡ cuts_of self.now }
    {
        &self.places[0..self.count]
    }
}

// Reads an input of a kind: the text of a sheet, and a line of cuts.
pub fn read_input<M: CodedMark>(bytes: &[u8]) -> Result<Input, usize>
    ensures { ReadsInput M.Spelled.named M.Spelled.spelled bytes.now result }
{
    let head = read_sheet::<M>(bytes)?;
    let (down, across, rest) = cut_line(Cursor::new(bytes, head.end))?;
    let end = rest.place();
    if end < bytes.len() {
        return Err(end);
    }
    Ok(Input {
        sides: head.sides,
        end: head.end,
        down,
        across,
    })
}
