// A sheet over a lent slice of marks.
ghost use Rattle.std.specs.Prelude.{◌≡◌, ℕ, ◌+◌, ◌*◌, ◌<◌, ◌≤◌, [], ◌∷◌, ◌++◌, length, take, drop, IfOk};
ghost use Rattle.marks.specs.Refusals.{told, answered};
ghost use Rattle.sheets.specs.Grids.{Side};
ghost use Rattle.sheets.specs.Layouts.{flat, make_told};

use crate::sheet::{Sheet, WritableSheet};
use crate::sides::Sides;
use marks::{Mark, Refusal};

// A sheet whose marks lie row by row in a slice. None of its cells is dead.
#[derive(Drop)]
pub struct Raster<'a, M> {
    // No `sides: Sides`: of a `Result` the check says "a type argument holds a `&mut` and a struct that has a ghost field".
    rows: usize,
    cols: usize,
    cells: &'a mut [M],
    ghost rows_side: { Side rows },
    ghost cols_side: { Side cols },
    ghost long: { length cells.now ≡ rows * cols },
}

impl<'a, M> Raster<'a, M> {
    // The sheet of so many rows and columns over a slice that holds its marks. Any numbers may be asked for, so they are no `Sides`.
    pub fn new(rows: usize, cols: usize, cells: &'a mut [M]) -> Result<Raster<'a, M>, Refusal>
        ensures told { answered (λ _. tt {0}) (told result) ≡ make_told rows cols (length cells.old) (rows * cols) (tt {0}) }
        ensures made { IfOk result (λ s. (s.rows ≡ rows) × (s.cols ≡ cols) × (s.cells.now ≡ cells.old) × (s.cells.ghost_name ≡ cells.entry.ghost_name)) }
    {
        let sides = Sides::fitting(rows, cols, cells.len(), 1)?;
        Ok(Raster::over(sides, cells))
    }

    // The same where the length is known to fit. Through a `Result` the check forgets whose slice a sheet holds.
    pub(crate) fn over(sides: Sides, cells: &'a mut [M]) -> Raster<'a, M>
        requires { length cells.old ≡ sides.rows * sides.cols }
        ensures rows { result.rows ≡ sides.rows }
        ensures cols { result.cols ≡ sides.cols }
        ensures cells { result.cells.now ≡ cells.old }
        ensures loans { result.cells.ghost_name ≡ cells.entry.ghost_name }
    {
        let Sides { rows, cols } = sides;
        Raster { rows, cols, cells }
    }
}

impl<'a, M: Mark> Sheet for Raster<'a, M> {
    type Mark = M;

    ghost meaning = { λ s. flat s.rows s.cols s.cells.now };

    ghost sided = { λ s. record { rows = s.rows_side; cols = s.cols_side } };

    fn sides(&self) -> Sides {
        Sides {
            rows: self.rows,
            cols: self.cols,
        }
    }

    fn read(&self, row: usize, col: usize, out: &mut [M]) -> Result<(), Refusal> {
        let len = out.len();
        let from = self.sides().start_of_run(row, col, len)?;
        out.copy_from_slice(&self.cells[from..from + len]);
        Ok(())
    }
}

impl<'a, M: Mark> WritableSheet for Raster<'a, M> {
    ghost loans = { λ s. s.cells.ghost_name ∷ [] };

    fn write(&mut self, row: usize, col: usize, marks: &[M]) -> Result<(), Refusal> {
        let from = self.sides().start_of_run(row, col, marks.len())?;
        overwrite(self.cells, from, marks);
        Ok(())
    }
}

// Puts marks into the cells from a place on.
fn overwrite<M: Copy>(cells: &mut [M], from: usize, marks: &[M])
    requires { from + length marks.now ≤ length cells.old }
    ensures { cells.new ≡ take from cells.old ++ (marks.now ++ drop (from + length marks.now) cells.old) }
{
    cells[from..from + marks.len()].copy_from_slice(marks);
}
