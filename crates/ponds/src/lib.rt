// A sample ground of five nodes, and the tests of the heap and of the flood.
#![tactic(auto)]

ghost use Rattle.ponds.specs.Laws.{pond_laws};
ghost use Rattle.ponds.specs.Ponds.{joined, outlet};

use flood::Ground;
use marks::{Mark, Order};

#[cfg(test)]
mod tests;

// Five nodes joined at three levels: node 1 is reached first at the high one and later at the middle one, node 3 is its
// own origin, and node 4 has no route.
#[derive(Clone, Copy)]
pub struct Pond<M> {
    pub low: M,
    pub mid: M,
    pub high: M,
}

// How many nodes a pond has.
const NODES: usize = 5;

impl<M: Mark> Ground for Pond<M> {
    type Mark = M;

    ghost nodes = { λ p. 5 };

    ghost crossings = { λ p. joined p.low p.mid p.high };

    ghost drain = { λ p. outlet p.low p.mid p.high };

    ghost laws = { λ p. pond_laws p.low p.mid p.high };

    fn nodes(&self) -> usize {
        NODES
    }

    fn crossing(&self, node: usize, place: usize) -> Option<(usize, M)> {
        match (node, place) {
            (0, 0) => Some((1, self.high)),
            (0, 1) => Some((2, self.low)),
            (1, 0) => Some((0, self.high)),
            (1, 1) => Some((2, self.mid)),
            (1, 2) => Some((3, self.low)),
            (2, 0) => Some((0, self.low)),
            (2, 1) => Some((1, self.mid)),
            (3, 0) => Some((1, self.low)),
            _ => None,
        }
    }

    fn drain(&self, node: usize) -> Option<M> {
        match node {
            0 => Some(self.low),
            3 => Some(self.mid),
            _ => None,
        }
    }
}
