// Where a cell lies.

// A cell by its tile, and by its row and column in that tile.
#[derive(Clone, Copy, PartialEq, Eq, Debug)]
pub struct Spot {
    pub tile: usize,
    pub row: usize,
    pub col: usize,
}

// A cell on the border of its tile: that tile, and the cell's row and column on the sheet.
#[derive(Clone, Copy, PartialEq, Eq, Debug)]
pub struct Mouth {
    pub tile: usize,
    pub row: usize,
    pub col: usize,
}
