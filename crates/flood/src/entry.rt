// What waits in the heap of a flood.
ghost use Rattle.flood.specs.Entries.{before};
ghost use Rattle.std.proofs.Math.Dec;
ghost use Rattle.flood.specs.Lexical.{lexical_transitive, leb_transitive};
ghost use Rattle.std.proofs.Common.{rules};

use marks::Order;

// A node that waits, with its level and its origin so far.
#[derive(Clone, Copy, Debug, PartialEq, Eq)]
pub struct Entry<M> {
    pub level: M,
    pub node: usize,
    pub origin: usize,
}

// By the level, among equal levels by the node, and then by the origin. No derive: a mark has an order by its laws, and no `Ord`.
impl<M: Order> Order for Entry<M> {
    ghost leb = { before M.Order.leb };

    ghost total = { Prim.search rules };

    ghost transitive = { λ x y z.
        lexical_transitive M.Order.leb M.Order.transitive x.level y.level z.level _ _ _
        (lexical_transitive Dec.leb leb_transitive x.node y.node z.node _ _ _ (leb_transitive x.origin y.origin z.origin)) };

    ghost antisymmetric = { Prim.search rules };

    fn at_most(&self, other: &Entry<M>) -> bool {
        if !self.level.at_most(&other.level) {
            return false;
        }
        if !other.level.at_most(&self.level) {
            return true;
        }
        (self.node, self.origin) <= (other.node, other.origin)
    }
}
