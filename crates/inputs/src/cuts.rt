// The cuts that a line of them has.
ghost use Rattle.std.specs.Prelude.{◌≤◌};

// Up to 31 cuts of one side. An `ArrayVec` of them would not be `Copy`, which this is.
#[derive(Clone, Copy)]
pub struct Cuts {
    pub(crate) places: [usize; 31],
    pub(crate) count: usize,
    ghost held: { count ≤ 31 },
}
