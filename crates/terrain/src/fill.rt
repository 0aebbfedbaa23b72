// A whole sheet filled at once.
ghost use Rattle.std.specs.Prelude.{◌≡◌, ℕ, ◌≤◌, false, not, ◌&&◌, [], ◌∷◌, length};
ghost use Rattle.marks.specs.Refusals.{told, checked};
ghost use Rattle.terrain.specs.Fills.{other_sides, size, scratch_short, dead_in, raised, fill_told, FillLeaves, SameLoans, ScratchLeft, SillsFill};
ghost use Rattle.terrain.specs.Levels.{new_mark, risen, Raised};
ghost use Rattle.terrain.specs.Terrains.{kind_of};

use crate::blocks::{read_block, write_block};
use crate::levels::flood_cells;
use crate::scratch::Scratch;
use marks::{Mark, Order, Refusal};
use sheets::{Extent, Place, Sheet, Sides, WritableSheet};

// Whether a slice lent to work in has fewer than n places.
pub fn is_short<M>(scratch: &Scratch<M>, n: usize) -> bool
    ensures { result ≡ scratch_short n scratch.now }
{
    scratch.marks.len() < n
        || scratch.levels.len() < n
        || scratch.origins.len() < n
        || scratch.heap.len() < n
}

// A cell's new mark: void stays, and any other cell gets its level.
fn filled_mark<M: Mark>(mark: M, level: Option<M>) -> M
    ensures { result ≡ new_mark (kind_of M.Order M.Mark.lowest) mark level }
{
    if mark.at_most(&M::void()) {
        mark
    } else {
        level.unwrap_or(mark)
    }
}

// Whether a mark that is not void rose.
fn has_risen<M: Mark>(mark: M, new: M) -> bool
    ensures { result ≡ (not (M.Order.leb mark M.Mark.lowest) && not (M.Order.leb new mark)) }
{
    !mark.at_most(&M::void()) && !new.at_most(&mark)
}

// Gives each mark that is not void its level, and says how many rose.
fn raise<M: Mark>(marks: &mut [M], levels: &[Option<M>]) -> usize
    requires { length marks.old ≤ length levels.now }
    ensures marks { Raised (kind_of M.Order M.Mark.lowest) marks.old marks.new levels.now (length marks.old) }
    ensures count { result ≡ risen (kind_of M.Order M.Mark.lowest) marks.old levels.now (length marks.old) }
{
    let mut raised = 0;
    // No `zip(levels)`: of a slice that is written through it, an invariant cannot say what it holds.
    for (k, mark) in marks.iter_mut().enumerate() {
        let new = filled_mark(*mark, levels[k]);
        if has_risen(*mark, new) {
            raised += 1;
        }
        *mark = new;
    }
    raised
}

// Fills a sheet into one of the same sides, with slices that are long enough.
fn fill<S: Sheet, T: WritableSheet<Mark = S::Mark>>(
    source: &S,
    target: &mut T,
    scratch: Scratch<S::Mark>,
) -> Result<usize, Refusal>
    requires sides { other_sides (S.Sheet.meaning source.now) (T.Sheet.meaning target.old) ≡ false }
    requires marks { length scratch.marks.now ≡ size (S.Sheet.meaning source.now) }
    requires room { scratch_short (size (S.Sheet.meaning source.now)) scratch ≡ false }
    ensures loans { T.WritableSheet.loans target.new ≡ T.WritableSheet.loans target.old }
    ensures told { told result ≡ checked ((dead_in (S.Sheet.meaning source.now), 7) ∷ []) (raised (kind_of S.Mark.Order S.Mark.Mark.lowest) (S.Sheet.meaning source.now) (T.Sheet.meaning target.new)) }
    ensures leaves { FillLeaves (kind_of S.Mark.Order S.Mark.Mark.lowest) (S.Sheet.meaning source.now) (T.Sheet.meaning target.old) (T.Sheet.meaning target.new) result }
{
    let Scratch {
        marks,
        levels,
        origins,
        heap,
    } = scratch;
    let Sides { rows, cols } = source.sides();
    let first = Place { row: 0, col: 0 };
    let whole = Extent {
        height: rows,
        width: cols,
    };
    read_block(source, first, whole, marks)?;
    flood_cells(rows, cols, marks, levels, origins, heap)?;
    let raised = raise(marks, levels);
    write_block(target, first, whole, marks)?;
    Ok(raised)
}

// Fills a whole sheet into another of the same sides: each cell of the target is void where the source is void, and
// elsewhere its sill. Answers how many cells, not void, rose.
pub fn fill_sheet<S: Sheet, T: WritableSheet<Mark = S::Mark>>(
    source: &S,
    target: &mut T,
    scratch: &mut Scratch<S::Mark>,
) -> Result<usize, Refusal>
    ensures loans { (T.WritableSheet.loans target.new ≡ T.WritableSheet.loans target.old) × (SameLoans scratch.old scratch.new) }
    ensures told { told result ≡ fill_told (kind_of S.Mark.Order S.Mark.Mark.lowest) (S.Sheet.meaning source.now) (T.Sheet.meaning target.old) (T.Sheet.meaning target.new) scratch.old }
    ensures leaves { FillLeaves (kind_of S.Mark.Order S.Mark.Mark.lowest) (S.Sheet.meaning source.now) (T.Sheet.meaning target.old) (T.Sheet.meaning target.new) result }
    ensures scratch { ScratchLeft scratch.old scratch.new result }
    ensures surface { SillsFill (kind_of S.Mark.Order S.Mark.Mark.lowest) (S.Sheet.meaning source.now) }
{
    let sides = source.sides();
    if sides != target.sides() {
        return Err(Refusal::Outside);
    }
    let cells = sides.cells();
    if is_short(scratch, cells) {
        return Err(Refusal::ScratchShort);
    }
    let Scratch {
        marks,
        levels,
        origins,
        heap,
    } = scratch;
    let scratch = Scratch {
        marks: &mut marks[..cells],
        levels,
        origins,
        heap,
    };
    fill(source, target, scratch)
}
