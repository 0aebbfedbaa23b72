// The ground of a sheet's cells.
ghost use Rattle.std.specs.Prelude.{◌≡◌, ℕ, ◌*◌, length, IfOk};
ghost use Rattle.marks.specs.Refusals.{told, answered};
ghost use Rattle.sheets.specs.Layouts.{make_told};

use marks::Refusal;
use sheets::Sides;

pub mod meaning;

// The cells of a sheet whose marks lie row by row in a slice, as the nodes of a ground: cells that touch are joined at
// the higher of their marks, and cells on the edge drain at their own.
#[derive(Drop)]
pub struct CellGround<'a, M> {
    sides: Sides,
    marks: &'a [M],
    ghost long: { length marks.now ≡ sides.rows * sides.cols },
}

impl<'a, M> CellGround<'a, M> {
    // The ground of so many rows and columns over a slice that holds its marks. Any sides may be asked for.
    pub fn new(rows: usize, cols: usize, marks: &'a [M]) -> Result<CellGround<'a, M>, Refusal>
        ensures told { answered (λ _. tt {0}) (told result) ≡ make_told rows cols (length marks.now) (rows * cols) (tt {0}) }
        ensures made { IfOk result (λ s. (s.sides.rows ≡ rows) × (s.sides.cols ≡ cols) × (s.marks.now ≡ marks.now)) }
    {
        let sides = Sides::fitting(rows, cols, marks.len(), 1)?;
        Ok(CellGround { sides, marks })
    }
}
