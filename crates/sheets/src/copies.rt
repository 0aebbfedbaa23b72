// Copies between sheets.
ghost use Rattle.std.specs.Prelude.{◌≡◌, ℕ, ◌+◌, ◌^◌, ◌<◌, ◌≤◌, false, ◌||◌, [], ◌∷◌, length, nat_lt};
ghost use Rattle.marks.specs.Refusals.{told, checked, accepted};
ghost use Rattle.sheets.specs.Runs.{broken, Holds, outside, Written};
ghost use Rattle.sheets.specs.Copies.{exceeds, misplaced, broken_rows, copy_told, Copied, CopyLeaves, ScratchLeft};

use crate::sheet::{Sheet, WritableSheet};
use marks::Refusal;

// Where a rectangle begins.
#[derive(Clone, Copy, PartialEq, Eq, Debug)]
pub struct Place {
    pub row: usize,
    pub col: usize,
}

impl Place {
    // The place so many rows below.
    fn below(self, rows: usize) -> Place
        requires { self.row + rows < 2 ^ 64 }
        ensures { result ≡ record { row = self.row + rows; col = self.col } }
    {
        Place {
            row: self.row + rows,
            col: self.col,
        }
    }
}

// How many rows and columns a rectangle has.
#[derive(Clone, Copy, PartialEq, Eq, Debug)]
pub struct Extent {
    pub height: usize,
    pub width: usize,
}

// Copies a rectangle of one sheet into another, through a scratch row. Every row is read before any is written, so that
// a dead cell leaves the target as it was.
pub fn copy_rectangle<S: Sheet, T: WritableSheet<Mark = S::Mark>>(
    source: &S,
    from: Place,
    target: &mut T,
    to: Place,
    extent: Extent,
    scratch: &mut [S::Mark],
) -> Result<(), Refusal>
    ensures loans { T.WritableSheet.loans target.new ≡ T.WritableSheet.loans target.old }
    ensures told { told result ≡ copy_told (S.Sheet.meaning source.now) from (T.Sheet.meaning target.old) to extent (length scratch.old) }
    ensures leaves { CopyLeaves (S.Sheet.meaning source.now) from (T.Sheet.meaning target.old) (T.Sheet.meaning target.new) to extent result }
    ensures scratch { ScratchLeft (misplaced (S.Sheet.meaning source.now) from (T.Sheet.meaning target.old) to extent || nat_lt (length scratch.old) extent.width) scratch.old scratch.new }
{
    if source.sides().exceeded_by(from, extent) || target.sides().exceeded_by(to, extent) {
        return Err(Refusal::Outside);
    }
    if scratch.len() < extent.width {
        return Err(Refusal::ScratchShort);
    }
    let run = &mut scratch[..extent.width];
    check_rows(source, from, extent.height, run)?;
    copy_rows(source, from, target, to, extent.height, run)
}

// Whether the rectangle at a place leaves so many rows and columns, which may be any numbers.
pub fn leaves(place: Place, extent: Extent, rows: usize, cols: usize) -> bool
    ensures { result ≡ exceeds rows cols place extent }
{
    place.row > rows
        || extent.height > rows - place.row
        || place.col > cols
        || extent.width > cols - place.col
}

// Reads every row of a rectangle that is as wide as the run, and says whether one is broken.
fn check_rows<S: Sheet>(
    source: &S,
    from: Place,
    height: usize,
    run: &mut [S::Mark],
) -> Result<(), Refusal>
    requires rows { from.row + height ≤ (S.Sheet.meaning source.now).rows }
    requires cols { from.col + length run.old ≤ (S.Sheet.meaning source.now).cols }
    ensures { told result ≡ checked ((broken_rows (S.Sheet.meaning source.now) from (length run.old) height, 7) ∷ []) tt }
{
    // No slice is gone through: i counts rows of the sheet, and the invariant counts them from 0 too.
    for i in 0..height {
        source.read(from.row + i, from.col, run)?;
    }
    Ok(())
}

// Copies every row of a rectangle that is as wide as the run, lies in both sheets and has no dead cell.
fn copy_rows<S: Sheet, T: WritableSheet<Mark = S::Mark>>(
    source: &S,
    from: Place,
    target: &mut T,
    to: Place,
    height: usize,
    run: &mut [S::Mark],
) -> Result<(), Refusal>
    requires rows { from.row + height ≤ (S.Sheet.meaning source.now).rows }
    requires cols { from.col + length run.old ≤ (S.Sheet.meaning source.now).cols }
    requires target_rows { to.row + height ≤ (T.Sheet.meaning target.old).rows }
    requires target_cols { to.col + length run.old ≤ (T.Sheet.meaning target.old).cols }
    requires whole { broken_rows (S.Sheet.meaning source.now) from (length run.old) height ≡ false }
    ensures loans { T.WritableSheet.loans target.new ≡ T.WritableSheet.loans target.old }
    ensures told { told result ≡ accepted tt }
    ensures leaves { Copied (S.Sheet.meaning source.now) from (T.Sheet.meaning target.old) (T.Sheet.meaning target.new) to height (length run.old) }
{
    for i in 0..height {
        copy_row(source, from.below(i), target, to.below(i), run)?;
    }
    Ok(())
}

// Copies a run that lies in both sheets and has no dead cell.
fn copy_row<S: Sheet, T: WritableSheet<Mark = S::Mark>>(
    source: &S,
    from: Place,
    target: &mut T,
    to: Place,
    run: &mut [S::Mark],
) -> Result<(), Refusal>
    requires inside { outside (S.Sheet.meaning source.now) from.row from.col (length run.old) ≡ false }
    requires whole { broken (S.Sheet.meaning source.now) from.row from.col (length run.old) ≡ false }
    requires target_inside { outside (T.Sheet.meaning target.old) to.row to.col (length run.old) ≡ false }
    ensures loans { T.WritableSheet.loans target.new ≡ T.WritableSheet.loans target.old }
    ensures told { told result ≡ accepted tt }
    ensures run { Holds (S.Sheet.meaning source.now) from.row from.col run.new }
    ensures leaves { Written (T.Sheet.meaning target.old) (T.Sheet.meaning target.new) to.row to.col run.new }
{
    source.read(from.row, from.col, run)?;
    target.write(to.row, to.col, run)
}
