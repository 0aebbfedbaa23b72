// The first line of a text.
use sheets::Sides;

// The sides that a text begins with, and where it ends.
#[derive(Clone, Copy, PartialEq, Eq, Debug)]
pub struct Heading {
    pub sides: Sides,
    pub end: usize,
}
