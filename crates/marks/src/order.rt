// Total orders.
ghost use Rattle.std.specs.Prelude.{◌≡◌, Bool, true, false};
ghost use Rattle.marks.specs.Orders.{highest};

// Values of which any two can be compared. Generic code knows an order by these laws alone. std's `Ord` stays beside it: it tells
// which values are equal by `==`, but a sill is one mark because two marks, each at most the other, are the same.
pub trait Order: Copy {
    // Whether the first is at most the second.
    ghost leb: { Self → Self → Bool };

    fn at_most(&self, other: &Self) -> bool
        ensures { result ≡ leb self.now other.now };

    ghost total: { (x y : Self) → leb x y ≡ false → leb y x ≡ true };

    ghost transitive: { (x y z : Self) → leb x y ≡ true → leb y z ≡ true → leb x z ≡ true };

    ghost antisymmetric: { (x y : Self) → leb x y ≡ true → leb y x ≡ true → x ≡ y };
}

// The higher of two.
pub fn higher<M: Order>(a: M, b: M) -> M
    ensures { result ≡ highest M.Order.leb a b }
{
    if a.at_most(&b) { b } else { a }
}
