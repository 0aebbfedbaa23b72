// A tile read and flooded, and the marks of its mouths kept.
ghost use Rattle.std.specs.Prelude.{◌≡◌, ℕ, ◌+◌, ◌<◌, ◌≤◌, false, [], ◌∷◌, length, Some, None, slice_index_or};
ghost use Rattle.marks.specs.Refusals.{told, checked};
ghost use Rattle.flood.specs.Calls.{short};
ghost use Rattle.terrain.specs.Terrains.{kind_of};
ghost use Rattle.tiles.specs.Plans.{area_of, height, width};
ghost use Rattle.tiles.specs.Mouths.{border, mouth_index};
ghost use Rattle.tables.specs.Records.{mouth_with};
ghost use Rattle.surveying.specs.Blocks.{dead_in, Inside, BlockFlooded, cell_number, MarksKept};
ghost use Rattle.surveying.specs.Turns.{cells_of};

use flood::Entry;
use marks::{Mark, Refusal};
use sheets::{Extent, Place, Sheet};
use tables::MouthRecord;
use terrain::{flood_cells, read_block};
use tiles::Block;

// Reads a block of a sheet into a slice of its size, and floods it alone. Refused only where one of its cells is dead. The
// slices are lent one by one, as to a flood.
pub(crate) fn flood_block<S: Sheet>(
    source: &S,
    block: &Block,
    marks: &mut [S::Mark],
    levels: &mut [Option<S::Mark>],
    origins: &mut [Option<usize>],
    heap: &mut [Entry<S::Mark>],
) -> Result<(), Refusal>
    requires inside { Inside (S.Sheet.meaning source.now) (area_of block.now) }
    requires marks { length marks.old ≡ cells_of (area_of block.now) }
    requires room { short (cells_of (area_of block.now)) levels.old origins.old heap.old ≡ false }
    ensures told { told result ≡ checked ((dead_in (S.Sheet.meaning source.now) (area_of block.now), 7) ∷ []) tt }
    ensures leaves { BlockFlooded (kind_of S.Mark.Order S.Mark.Mark.lowest) (S.Sheet.meaning source.now) (area_of block.now) marks.new levels.new origins.new result }
{
    let corner = Place {
        row: block.top,
        col: block.left,
    };
    let extent = Extent {
        height: block.height(),
        width: block.width(),
    };
    read_block(source, corner, extent, marks)?;
    flood_cells(extent.height, extent.width, marks, levels, origins, heap)
}

// The record of a block's mouth: its mark, and no sill yet.
fn mouth_record<M: Mark>(block: &Block, marks: &[M], index: usize) -> MouthRecord<M>
    requires marks { length marks.now ≡ cells_of (area_of block.now) }
    requires index { index < border (height (area_of block.now)) (width (area_of block.now)) }
    ensures { (i j : ℕ) → mouth_index (area_of block.now) i j ≡ Some index → result ≡ mouth_with (slice_index_or marks.now (cell_number (area_of block.now) i j) M.Mark.lowest) None }
{
    let (row, col) = block.mouth_place(index).unwrap();
    let number = (row - block.top) * block.width() + (col - block.left);
    MouthRecord {
        mark: marks[number],
        sill: None,
    }
}

// Keeps the marks of all mouths of a block, in a table in which they stand from `first` on.
pub(crate) fn keep_marks<M: Mark>(
    block: &Block,
    marks: &[M],
    first: usize,
    mouths: &mut [MouthRecord<M>],
)
    requires marks { length marks.now ≡ cells_of (area_of block.now) }
    requires room { first + border (height (area_of block.now)) (width (area_of block.now)) ≤ length mouths.old }
    ensures { MarksKept (kind_of M.Order M.Mark.lowest) (area_of block.now) marks.now first (border (height (area_of block.now)) (width (area_of block.now))) mouths.old mouths.new }
{
    let end = first + block.mouths();
    for (index, mouth) in mouths[first..end].iter_mut().enumerate() {
        *mouth = mouth_record(block, marks, index);
    }
}
