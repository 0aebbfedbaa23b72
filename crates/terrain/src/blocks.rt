// Rectangles of a sheet, read and written at once.
ghost use Rattle.std.specs.Prelude.{◌≡◌, ℕ, ◌+◌, ◌*◌, ◌≤◌, false, [], ◌∷◌, length};
ghost use Rattle.marks.specs.Refusals.{told, accepted, checked};
ghost use Rattle.sheets.specs.Copies.{exceeds, broken_rows, Copied};
ghost use Rattle.sheets.specs.Grids.{Grid};
ghost use Rattle.sheets.specs.Layouts.{flat};
ghost use Rattle.terrain.specs.Blocks.{HoldsBlock, misfits, read_block_told, ReadBlockLeaves, write_block_told, WriteBlockLeaves};
ghost use Rattle.terrain.specs.Cells.{place};

use marks::Refusal;
use sheets::{Extent, Place, Sheet, Sides, WritableSheet};

// Reads a rectangle of a sheet into a slice, row by row.
pub fn read_block<S: Sheet>(
    source: &S,
    from: Place,
    extent: Extent,
    marks: &mut [S::Mark],
) -> Result<(), Refusal>
    ensures told { told result ≡ read_block_told (S.Sheet.meaning source.now) from extent (length marks.old) }
    ensures leaves { ReadBlockLeaves (S.Sheet.meaning source.now) from extent marks.old marks.new result }
{
    check_block(source.sides(), from, extent, marks.len())?;
    read_rows(source, from, extent, marks)
}

// Refuses a rectangle that leaves the sides, or that has not so many cells.
fn check_block(sides: Sides, place: Place, extent: Extent, len: usize) -> Result<(), Refusal>
    ensures { told result ≡ checked ((exceeds sides.rows sides.cols place extent, 6) ∷ (misfits extent len, 4) ∷ []) tt }
{
    if sides.exceeded_by(place, extent) {
        return Err(Refusal::Outside);
    }
    if len != extent.height * extent.width {
        return Err(Refusal::WrongLength);
    }
    Ok(())
}

// Reads a rectangle that lies in the sheet into a slice of its size.
fn read_rows<S: Sheet>(
    source: &S,
    from: Place,
    extent: Extent,
    marks: &mut [S::Mark],
) -> Result<(), Refusal>
    requires rows { from.row + extent.height ≤ (S.Sheet.meaning source.now).rows }
    requires cols { from.col + extent.width ≤ (S.Sheet.meaning source.now).cols }
    requires long { length marks.old ≡ extent.height * extent.width }
    ensures told { told result ≡ checked ((broken_rows (S.Sheet.meaning source.now) from extent.width extent.height, 7) ∷ []) tt }
    ensures leaves { ReadBlockLeaves (S.Sheet.meaning source.now) from extent marks.old marks.new result }
{
    // No `chunks_exact_mut`: it wants a width of at least 1, and a rectangle may have none.
    for i in 0..extent.height {
        let start = i * extent.width;
        source.read(
            from.row + i,
            from.col,
            &mut marks[start..start + extent.width],
        )?;
    }
    Ok(())
}

// Writes a rectangle of a sheet from a slice, row by row.
pub fn write_block<T: WritableSheet>(
    target: &mut T,
    to: Place,
    extent: Extent,
    marks: &[T::Mark],
) -> Result<(), Refusal>
    ensures loans { T.WritableSheet.loans target.new ≡ T.WritableSheet.loans target.old }
    ensures told { told result ≡ write_block_told (T.Sheet.meaning target.old) to extent (length marks.now) }
    ensures leaves { WriteBlockLeaves (T.Sheet.meaning target.old) (T.Sheet.meaning target.new) to extent marks.now result }
{
    check_block(target.sides(), to, extent, marks.len())?;
    write_rows(target, to, extent, marks)
}

// Writes a rectangle that lies in the sheet from a slice of its size.
fn write_rows<T: WritableSheet>(
    target: &mut T,
    to: Place,
    extent: Extent,
    marks: &[T::Mark],
) -> Result<(), Refusal>
    requires rows { to.row + extent.height ≤ (T.Sheet.meaning target.old).rows }
    requires cols { to.col + extent.width ≤ (T.Sheet.meaning target.old).cols }
    requires long { length marks.now ≡ extent.height * extent.width }
    ensures loans { T.WritableSheet.loans target.new ≡ T.WritableSheet.loans target.old }
    ensures told { told result ≡ accepted tt }
    ensures leaves { Copied (flat extent.height extent.width marks.now) (place 0 0) (T.Sheet.meaning target.old) (T.Sheet.meaning target.new) to extent.height extent.width }
{
    // No `chunks_exact`, as above.
    for i in 0..extent.height {
        let start = i * extent.width;
        target.write(to.row + i, to.col, &marks[start..start + extent.width])?;
    }
    Ok(())
}
