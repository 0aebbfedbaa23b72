// A sheet over its text.
ghost use Rattle.std.specs.Prelude.{◌≡◌};
ghost use Rattle.brackets.specs.Lines.{row_starts};

use sheets::Sides;
use std::marker::PhantomData;

// The text of a sheet, and the places in it at which the rows begin.
#[derive(Drop)]
pub struct Text<'a, M> {
    pub(crate) sides: Sides,
    pub(crate) bytes: &'a [u8],
    pub(crate) starts: Vec<usize>,
    pub(crate) kind: PhantomData<M>,
    ghost begin: { starts.items ≡ row_starts sides.rows bytes.now },
}
