// The sides of a sheet, and what they say of runs, rectangles and cells.
ghost use Rattle.std.specs.Prelude.{◌≡◌, ℕ, ◌+◌, ◌*◌, ◌<◌, ◌≤◌, [], ◌∷◌, IfOk};
ghost use Rattle.marks.specs.Refusals.{told, checked, answered};
ghost use Rattle.sheets.specs.Grids.{Side, at_edge};
ghost use Rattle.sheets.specs.Layouts.{bad_sides, make_told};
ghost use Rattle.sheets.specs.Runs.{overruns};
ghost use Rattle.sheets.specs.Copies.{exceeds};

use crate::copies::{Extent, Place, leaves};
use marks::Refusal;

// How many rows and columns a sheet has: each from 1 to 2,048.
#[derive(Clone, Copy, PartialEq, Eq, Debug)]
pub struct Sides {
    pub rows: usize,
    pub cols: usize,
    ghost rows_side: { Side rows },
    ghost cols_side: { Side cols },
}

impl Sides {
    // So many rows and columns, if a sheet may have them.
    pub fn new(rows: usize, cols: usize) -> Result<Sides, Refusal>
        ensures told { answered (λ _. tt {0}) (told result) ≡ checked ((bad_sides rows cols, 1) ∷ []) (tt {0}) }
        ensures made { IfOk result (λ s. (s.rows ≡ rows) × (s.cols ≡ cols)) }
    {
        if rows < 1 || rows > 2048 || cols < 1 || cols > 2048 {
            return Err(Refusal::Size);
        }
        Ok(Sides { rows, cols })
    }

    // The same, if memory of a length holds the cells, so many places to each.
    pub fn fitting(rows: usize, cols: usize, len: usize, each: u8) -> Result<Sides, Refusal>
        ensures told { answered (λ _. tt {0}) (told result) ≡ make_told rows cols len (each * (rows * cols)) (tt {0}) }
        ensures made { IfOk result (λ s. (s.rows ≡ rows) × (s.cols ≡ cols) × (len ≡ each * (rows * cols))) }
    {
        let sides = Sides::new(rows, cols)?;
        if len != usize::from(each) * sides.cells() {
            return Err(Refusal::WrongLength);
        }
        Ok(sides)
    }

    // How many cells there are.
    pub fn cells(self) -> usize
        ensures { result ≡ self.rows * self.cols }
    {
        self.rows * self.cols
    }

    // Whether the rectangle at a place leaves them.
    pub fn exceeded_by(self, place: Place, extent: Extent) -> bool
        ensures { result ≡ exceeds self.rows self.cols place extent }
    {
        leaves(place, extent, self.rows, self.cols)
    }

    // Whether a cell lies on the edge.
    pub fn on_edge(self, row: usize, col: usize) -> bool
        ensures { result ≡ at_edge self.rows self.cols row col }
    {
        row == 0 || row == self.rows - 1 || col == 0 || col == self.cols - 1
    }

    // Where a run begins, in cells from the first.
    pub fn start_of_run(self, row: usize, col: usize, len: usize) -> Result<usize, Refusal>
        ensures { told result ≡ checked ((overruns self.rows self.cols row col len, 6) ∷ []) (row * self.cols + col) }
    {
        if row >= self.rows || col > self.cols || len > self.cols - col {
            return Err(Refusal::Outside);
        }
        Ok(row * self.cols + col)
    }
}
