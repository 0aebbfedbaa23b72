// Rectangles of cells.
ghost use Rattle.std.specs.Prelude.{◌<◌, ◌≤◌};

// A rectangle of cells: its rows from top up to, but not with, bottom; its columns from left to right likewise.
#[derive(Clone, Copy)]
pub struct Block {
    pub top: usize,
    pub bottom: usize,
    pub left: usize,
    pub right: usize,
    ghost tall: { top < bottom },
    ghost wide: { left < right },
    ghost low: { bottom ≤ 2048 },
    ghost near: { right ≤ 2048 },
}
