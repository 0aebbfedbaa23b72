// Sheets over what others own, for as long as some work takes.
ghost use Rattle.std.specs.Prelude.{◌≡◌, ℕ, ◌*◌, length, MatchResult};
ghost use Rattle.marks.specs.Refusals.{told};
ghost use Rattle.sheets.specs.Grids.{Grid};
ghost use Rattle.sheets.specs.Layouts.{flat, packed, make_told};

use crate::packed::Packed;
use crate::raster::Raster;
use crate::sheet::WritableSheet;
use crate::sides::Sides;
use marks::{CodedMark, Mark, Refusal};

// Work that is done on a sheet, whatever the sheet is made of. A trait, since no closure can be generic over the sheet.
pub trait Work<M: Mark> {
    // What the work does: itself and the sheet's meaning before, the meaning and itself after.
    ghost does: { Self → Grid M → Grid M → Self → Type 0 };

    fn run<T: WritableSheet<Mark = M>>(&mut self, sheet: &mut T)
        ensures loans { T.WritableSheet.loans sheet.new ≡ T.WritableSheet.loans sheet.old }
        ensures rows { (T.Sheet.meaning sheet.new).rows ≡ (T.Sheet.meaning sheet.old).rows }
        ensures cols { (T.Sheet.meaning sheet.new).cols ≡ (T.Sheet.meaning sheet.old).cols }
        ensures does { does self.old (T.Sheet.meaning sheet.old) (T.Sheet.meaning sheet.new) self.new };
}

// Does some work on a raster over a slice of marks, which holds what the raster stands for afterwards. Any sides may be asked for,
// here and below.
pub fn on_raster<M: Mark, W: Work<M>>(
    rows: usize,
    cols: usize,
    cells: &mut [M],
    work: &mut W,
) -> Result<(), Refusal>
    ensures told { told result ≡ make_told rows cols (length cells.old) (rows * cols) tt }
    ensures leaves { MatchResult result (λ _. W.Work.does work.old (flat rows cols cells.old) (flat rows cols cells.new) work.new) (λ _. (cells.new ≡ cells.old) × (work.new ≡ work.old)) }
{
    let sides = Sides::fitting(rows, cols, cells.len(), 1)?;
    let mut sheet = Raster::over(sides, cells);
    work.run(&mut sheet);
    Ok(())
}

// Does some work on a packed sheet over bytes, which hold what the sheet stands for afterwards.
pub fn on_packed<M: CodedMark, W: Work<M>>(
    rows: usize,
    cols: usize,
    bytes: &mut [u8],
    work: &mut W,
) -> Result<(), Refusal>
    ensures told { told result ≡ make_told rows cols (length bytes.old) (2 * (rows * cols)) tt }
    ensures leaves { MatchResult result (λ _. W.Work.does work.old (packed M.CodedMark.decoded rows cols bytes.old) (packed M.CodedMark.decoded rows cols bytes.new) work.new) (λ _. (bytes.new ≡ bytes.old) × (work.new ≡ work.old)) }
{
    let sides = Sides::fitting(rows, cols, bytes.len(), 2)?;
    let mut sheet = Packed::<M>::over(sides, bytes);
    work.run(&mut sheet);
    Ok(())
}
