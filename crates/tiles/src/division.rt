// One side of a sheet and its cuts, held in an array.
ghost use Rattle.std.specs.Prelude.{◌≡◌, ◌+◌, ◌≤◌, true, false, length, take};
ghost use Rattle.tiles.specs.Rules.{lawful, side_outside, singles};

// A side and the places on it at which bands begin; beside them, how many bands are one cell long. In an array, since a cut
// list is `Copy` and takes no memory from a heap.
#[derive(Clone, Copy)]
pub(crate) struct Division {
    pub(crate) side: usize,
    pub(crate) count: usize,
    pub(crate) cuts: [usize; 31],
    pub(crate) single: usize,
    ghost sided: { side_outside side ≡ false },
    ghost held: { count ≤ 31 },
    ghost rules: { lawful side (take count cuts) ≡ true },
    ghost counted: { single ≡ singles side (take count cuts) (length (take count cuts) + 1) },
}
