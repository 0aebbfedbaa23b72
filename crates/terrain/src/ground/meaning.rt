// What the ground of a sheet's cells answers.
ghost use Rattle.std.specs.Prelude.{◌≡◌, ℕ, ◌*◌, ◌/◌, ◌%◌, ◌<◌, ◌≤◌, MatchOption};
ghost use Rattle.sheets.specs.Grids.{Side, at_edge};
ghost use Rattle.terrain.specs.CellGrounds.{cell_crossings, cell_drain};
ghost use Rattle.terrain.specs.Cells.{node_of};
ghost use Rattle.terrain.specs.Neighbours.{degree, neighbour, span};
ghost use Rattle.terrain.specs.CellLaws.{cell_laws};

use crate::ground::CellGround;
use flood::Ground;
use marks::{Mark, higher};
use sheets::Sides;

impl<'a, M: Mark> Ground for CellGround<'a, M> {
    type Mark = M;

    ghost nodes = { λ s. s.sides.rows * s.sides.cols };

    ghost crossings = { λ s. cell_crossings M.Order.leb M.Mark.lowest s.sides.rows s.sides.cols s.marks.now };

    ghost drain = { λ s. cell_drain M.Order.leb M.Mark.lowest s.sides.rows s.sides.cols s.marks.now };

    ghost laws = { λ s. cell_laws M.Order.leb M.Mark.lowest s.sides.rows s.sides.cols s.marks.now };

    fn nodes(&self) -> usize {
        self.marks.len()
    }

    fn crossing(&self, node: usize, place: usize) -> Option<(usize, M)> {
        let mark = *self.marks.get(node)?;
        let (row, col) = (node / self.sides.cols, node % self.sides.cols);
        let far = neighbour(self.sides, row, col, place)?;
        Some((far, higher(mark, self.marks[far])))
    }

    fn drain(&self, node: usize) -> Option<M> {
        let mark = *self.marks.get(node)?;
        on_edge(self.sides, node).then_some(mark)
    }
}

// Whether the cell of a number lies on the edge.
fn on_edge(sides: Sides, node: usize) -> bool
    ensures { result ≡ at_edge sides.rows sides.cols (node / sides.cols) (node % sides.cols) }
{
    let (row, col) = (node / sides.cols, node % sides.cols);
    sides.on_edge(row, col)
}

// How many cells along a side lie beside a cell, itself among them.
fn breadth(side: usize, at: usize) -> usize
    requires { (at < side) × (Side side) }
    ensures { result ≡ span side «at» }
{
    (at + 2).min(side) - at.saturating_sub(1)
}

// The number of the cell at a place of the list of those that touch a cell: reading order, the cell itself left out.
fn neighbour(sides: Sides, row: usize, col: usize, place: usize) -> Option<usize>
    requires { (row < sides.rows) × (col < sides.cols) }
    ensures { MatchOption result (degree sides.rows sides.cols row col ≤ place) (λ far. (place < degree sides.rows sides.cols row col) × (far ≡ node_of sides.cols (neighbour sides.cols row col place))) }
{
    let Sides { rows, cols } = sides;
    let top = row.saturating_sub(1);
    let left = col.saturating_sub(1);
    let width = breadth(cols, col);
    if place >= breadth(rows, row) * width - 1 {
        return None;
    }
    let centre = (row - top) * width + (col - left);
    let k = if place < centre { place } else { place + 1 };
    if k < width {
        return Some(top * cols + (left + k));
    }
    if k < width + width {
        return Some((top + 1) * cols + (left + (k - width)));
    }
    Some((top + 2) * cols + (left + (k - (width + width))))
}
