// What a sheet is, by its meaning.
ghost use Rattle.std.specs.Prelude.{◌≡◌, List, length};
ghost use Rattle.std.specs.Borrow.{GName};
ghost use Rattle.marks.specs.Refusals.{told};
ghost use Rattle.sheets.specs.Grids.{Grid, Sided};
ghost use Rattle.sheets.specs.Runs.{read_told, ReadLeaves, write_told, WriteLeaves};

use crate::sides::Sides;
use marks::{Mark, Refusal};

// A sheet that can be read: rows and columns of cells, each with a mark or dead. Whatever it is made of, what is known
// of it is its meaning.
pub trait Sheet {
    type Mark: Mark;

    // Its sides, and what stands in each cell.
    ghost meaning: { Self → Grid Self.Mark };

    // Each side is 1 to 2,048.
    ghost sided: { (s : Self) → Sided (meaning s) };

    // How many rows and how many columns it has.
    fn sides(&self) -> Sides
        ensures rows { result.rows ≡ (meaning self.now).rows }
        ensures cols { result.cols ≡ (meaning self.now).cols };

    // Fills a slice with the marks of a run: as many cells of one row, from a column on.
    fn read(&self, row: usize, col: usize, out: &mut [Self::Mark]) -> Result<(), Refusal>
        ensures told { told result ≡ read_told (meaning self.now) row col (length out.old) }
        ensures leaves { ReadLeaves (meaning self.now) row col out.old out.new result };
}

// A sheet that can be written too.
pub trait WritableSheet: Sheet {
    // The loans that the sheet holds. A write keeps them, so that their owners know what they hold when the sheet is gone.
    ghost loans: { Self → List GName };

    // Puts marks into a run of one row, into dead cells too.
    fn write(&mut self, row: usize, col: usize, marks: &[Self::Mark]) -> Result<(), Refusal>
        ensures loans { loans self.new ≡ loans self.old }
        ensures told { told result ≡ write_told (Self.Sheet.meaning self.old) row col (length marks.now) }
        ensures leaves { WriteLeaves (Self.Sheet.meaning self.old) (Self.Sheet.meaning self.new) row col marks.now result };
}
