// Filling a sheet, in memory of its size.
ghost use Rattle.std.specs.Prelude.{◌≡◌, ◌*◌, ◌≤◌, false, [], ◌∷◌, length, MatchResult};
ghost use Rattle.marks.specs.Refusals.{told, checked};
ghost use Rattle.marks.specs.declared.refusal.Refusal.TheVariants.{NoMemory};
ghost use Rattle.terrain.specs.Terrains.{kind_of};
ghost use Rattle.terrain.specs.Fills.{dead_in};
ghost use Rattle.terrain.specs.Fills.{other_sides, raised, FillLeaves, size};
ghost use Rattle.answers.specs.Printed.{coded_of, Printed};

use crate::printing::append_raised;
use brackets::sheet_text;
use flood::Entry;
use marks::{CodedMark, Refusal};
use sheets::{Raster, Sheet, Sides};
use std::alloc::Global;
use terrain::{Scratch, fill_sheet};

// What is printed for a sheet without dead cells.
pub(crate) fn print_sheet<M: CodedMark, S: Sheet<Mark = M>>(
    heap: Global,
    source: &S,
) -> Result<Vec<u8>, Refusal>
    requires { dead_in (S.Sheet.meaning source.now) ≡ false }
    ensures { MatchResult result (λ v. Printed (coded_of M.Order M.Mark.lowest M.Spelled) (S.Sheet.meaning source.now) v.items) (λ e. e ≡ NoMemory) }
{
    let void = M::void();
    let Sides { rows, cols } = source.sides();
    let n = rows * cols;
    let mut cells = vec![in heap; void; n]?;
    let mut target = Raster::new(rows, cols, cells.as_mut_slice())?;
    // The memory that filling works in is given back before the text is made.
    let raised = {
        let entry = Entry {
            level: void,
            node: 0,
            origin: 0,
        };
        let mut marks = vec![in heap; void; n]?;
        let mut levels = vec![in heap; None; n]?;
        let mut origins = vec![in heap; None; n]?;
        let mut entries = vec![in heap; entry; n]?;
        let mut scratch = Scratch {
            marks: marks.as_mut_slice(),
            levels: levels.as_mut_slice(),
            origins: origins.as_mut_slice(),
            heap: entries.as_mut_slice(),
        };
        fill_sheet(source, &mut target, &mut scratch)?
    };
    let mut row = vec![in heap; void; cols]?;
    let mut text = sheet_text(heap, &target, row.as_mut_slice())?;
    append_raised(heap, &mut text, raised)?;
    Ok(text)
}
