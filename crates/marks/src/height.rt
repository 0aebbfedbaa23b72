// Heights.
ghost use Rattle.std.specs.Prelude.{◌≡◌, ◌^◌, ◌<◌, negsuc, MatchOption, ◌≢◌, int_le};
ghost use Rattle.std.specs.Int.Signed.{mag};
ghost use Rattle.std.proofs.Common.{lit<, rules, arith};

use crate::kind::Mark;
use crate::order::Order;

pub mod codes;

// A height in whole decimetres, from -32,767 to 32,767, or void, which the least number of 16 bits stands for: no enum, so that a
// mark is as large as its code, and its order is that of the numbers.
#[derive(Clone, Copy, PartialEq, Eq, PartialOrd, Ord, Debug)]
pub struct Height {
    dm: i16,
    ghost fits: { mag dm < 2 ^ 15 },
}

impl Height {
    // The height of so many decimetres; none of the number that stands for void.
    pub fn new(dm: i16) -> Option<Height>
        ensures { MatchOption result (dm ≡ negsuc 32767) (λ h. (h.dm ≡ dm) × (dm ≢ negsuc 32767)) }
    {
        (dm != i16::MIN).then_some(Height { dm })
    }

    // Its decimetres; none of void.
    pub fn decimetres(self) -> Option<i16>
        ensures { MatchOption result (self.dm ≡ negsuc 32767) (λ n. (n ≡ self.dm) × (n ≢ negsuc 32767)) }
    {
        (self.dm != i16::MIN).then_some(self.dm)
    }
}

impl Order for Height {
    ghost leb = { λ x y. int_le x.dm y.dm };

    ghost total = { Prim.search rules };

    ghost transitive = { Prim.search rules };

    ghost antisymmetric = { Prim.grind (arith, Self.row.coded.inj) };

    fn at_most(&self, other: &Height) -> bool {
        self <= other
    }
}

impl Mark for Height {
    ghost lowest = { record { dm = negsuc 32767; fits = lit< tt } };

    ghost least = { Prim.search rules };

    fn void() -> Height {
        Height { dm: i16::MIN }
    }
}
