// The program's input.
use crate::cuts::Cuts;
use sheets::Sides;

// The sides of a sheet, where its text ends, and its cuts.
#[derive(Clone, Copy)]
pub struct Input {
    pub sides: Sides,
    pub end: usize,
    pub down: Cuts,
    pub across: Cuts,
}
