// The mouths of a block: its cells on its border, in reading order.
ghost use Rattle.std.specs.Prelude.{◌≡◌, ◌+◌, ◌<◌, ◌≤◌, if◌then◌else◌, Some, None, MatchOption};
ghost use Rattle.tiles.specs.Plans.{area_of, height, width};
ghost use Rattle.tiles.specs.Mouths.{on_border, border, border_before, mouth_index};

use crate::block::Block;
use sheets::Sides;

impl Block {
    // How many rows it has.
    pub fn height(&self) -> usize
        ensures { result ≡ height (area_of self.now) }
    {
        self.bottom - self.top
    }

    // How many columns it has.
    pub fn width(&self) -> usize
        ensures { result ≡ width (area_of self.now) }
    {
        self.right - self.left
    }

    // Its sides, as those of a sheet.
    fn sides(&self) -> Sides
        ensures rows { result.rows ≡ height (area_of self.now) }
        ensures cols { result.cols ≡ width (area_of self.now) }
    {
        Sides {
            rows: self.height(),
            cols: self.width(),
        }
    }

    // How many mouths it has.
    pub fn mouths(&self) -> usize
        ensures { result ≡ border (height (area_of self.now)) (width (area_of self.now)) }
    {
        border_cells(self.sides())
    }

    // The number of a cell among its mouths, in reading order; none for a cell that is no mouth of it.
    pub fn mouth_index(&self, row: usize, col: usize) -> Option<usize>
        ensures { result ≡ mouth_index (area_of self.now) row col }
    {
        if row < self.top || row >= self.bottom || col < self.left || col >= self.right {
            return None;
        }
        border_index(self.sides(), row - self.top, col - self.left)
    }

    // The row and column of the mouth that has this number among its mouths; none if it has no such mouth.
    pub fn mouth_place(&self, index: usize) -> Option<(usize, usize)>
        ensures { MatchOption result (border (height (area_of self.now)) (width (area_of self.now)) ≤ index) (λ c. mouth_index (area_of self.now) c.0 c.1 ≡ Some index) }
    {
        if index >= self.mouths() {
            return None;
        }
        let (y, x) = border_place(self.sides(), index);
        Some((self.top + y, self.left + x))
    }
}

// How many cells lie on the border of a rectangle.
fn border_cells(sides: Sides) -> usize
    ensures { result ≡ border sides.rows sides.cols }
{
    let Sides { rows: h, cols: w } = sides;
    if h == 1 {
        return w;
    }
    if w == 1 {
        return h;
    }
    2 * (h + w) - 4
}

// How many border cells come before a border cell in reading order; none for another cell.
fn border_index(sides: Sides, y: usize, x: usize) -> Option<usize>
    requires { (y < sides.rows) × (x < sides.cols) }
    ensures { result ≡ (if on_border sides.rows sides.cols y x then Some (border_before sides.rows sides.cols y x) else None) }
{
    let Sides { rows: h, cols: w } = sides;
    if y == 0 {
        return Some(x);
    }
    if w == 1 {
        return Some(y);
    }
    // The first row is full, and each row between has two border cells.
    let above = w + 2 * (y - 1);
    if x == 0 {
        return Some(above);
    }
    if y + 1 == h {
        return Some(above + x);
    }
    if x + 1 == w {
        return Some(above + 1);
    }
    None
}

// The border cell before which so many others come in reading order.
fn border_place(sides: Sides, index: usize) -> (usize, usize)
    requires { index < border sides.rows sides.cols }
    ensures inside { (result.0 < sides.rows) × (result.1 < sides.cols) }
    ensures value { (if on_border sides.rows sides.cols result.0 result.1 then Some (border_before sides.rows sides.cols result.0 result.1) else None) ≡ Some index }
{
    let Sides { rows: h, cols: w } = sides;
    if index < w {
        return (0, index);
    }
    if w == 1 {
        return (index, 0);
    }
    let past = index - w;
    if past >= 2 * (h - 2) {
        return (h - 1, past - 2 * (h - 2));
    }
    if past % 2 == 0 {
        (1 + past / 2, 0)
    } else {
        (1 + past / 2, w - 1)
    }
}
