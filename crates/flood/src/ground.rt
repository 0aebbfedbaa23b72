// What is flooded.
ghost use Rattle.std.specs.Prelude.{◌≡◌, ℕ, List, Option};
ghost use Rattle.std.specs.List.{slice_get};
ghost use Rattle.flood.specs.Grounds.{Laws};

use marks::Mark;

// A ground: nodes below `nodes`, crossings between them at levels, and nodes that drain at a level. It names its own
// kind of mark. Asked for what is not there, it answers none.
pub trait Ground {
    type Mark: Mark;

    // How many nodes it has.
    ghost nodes: { Self → ℕ };

    // The crossings of a node, each with its far node and its level.
    ghost crossings: { Self → ℕ → List (ℕ × Self.Mark) };

    // The level at which a node drains.
    ghost drain: { Self → ℕ → Option Self.Mark };

    // What each ground must prove.
    ghost laws: { (g : Self) → Laws (nodes g) (crossings g) (drain g) };

    fn nodes(&self) -> usize
        ensures { result ≡ nodes self.now };

    // The crossing of a node at a place of its list.
    fn crossing(&self, node: usize, place: usize) -> Option<(usize, Self::Mark)>
        ensures { result ≡ slice_get (crossings self.now node) place };

    fn drain(&self, node: usize) -> Option<Self::Mark>
        ensures { result ≡ drain self.now node };
}
