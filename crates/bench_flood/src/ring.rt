// A ground whose nodes stand in a ring, joined at levels that are given: unlike in a sheet, a level that is found for a node
// may later be lowered.
ghost use Rattle.std.specs.Prelude.{◌≡◌, ◌<◌, ◌≤◌, slice_index_or};
ghost use Rattle.bench_flood.specs.Rings.{turn, ring_crossings, ring_drain};
ghost use Rattle.bench_flood.specs.RingLaws.{ring_laws};

use flood::Ground;
use marks::Mark;

// Each node is joined to those that stand `near` and `wide` further on, at the levels that stand at it. The first nodes drain.
#[derive(Drop)]
pub(crate) struct Ring<'a, 'b, M> {
    pub(crate) nodes: usize,
    pub(crate) outlets: usize,
    pub(crate) near: usize,
    pub(crate) wide: usize,
    pub(crate) near_levels: &'a [M],
    pub(crate) wide_levels: &'b [M],
}

// The node that stands so much further on.
fn on(nodes: usize, stride: usize, node: usize) -> usize
    requires { (stride ≤ nodes) × (node < nodes) }
    ensures { result ≡ turn nodes stride node }
{
    let rest = nodes - stride;
    if node < rest {
        node + stride
    } else {
        node - rest
    }
}

// The level at a place; void where there is none.
fn level_at<M: Mark>(levels: &[M], place: usize) -> M
    ensures { result ≡ slice_index_or levels.now place M.Mark.lowest }
{
    levels.get(place).copied().unwrap_or(M::void())
}

impl<'a, 'b, M: Mark> Ground for Ring<'a, 'b, M> {
    type Mark = M;

    ghost nodes = { λ s. s.nodes };

    ghost crossings = { λ s. ring_crossings M.Mark.lowest s.nodes s.near s.wide s.near_levels.now s.wide_levels.now };

    ghost drain = { λ s. ring_drain M.Mark.lowest s.nodes s.near s.wide s.near_levels.now s.wide_levels.now s.outlets };

    ghost laws = { λ s. ring_laws M.Mark.lowest s.nodes s.near s.wide s.near_levels.now s.wide_levels.now s.outlets };

    fn nodes(&self) -> usize {
        self.nodes
    }

    fn crossing(&self, node: usize, place: usize) -> Option<(usize, M)> {
        let nodes = self.nodes;
        if node >= nodes || self.near > nodes || self.wide > nodes {
            return None;
        }
        match place {
            0 => Some((on(nodes, self.near, node), level_at(self.near_levels, node))),
            1 => {
                let far = on(nodes, nodes - self.near, node);
                Some((far, level_at(self.near_levels, far)))
            }
            2 => Some((on(nodes, self.wide, node), level_at(self.wide_levels, node))),
            3 => {
                let far = on(nodes, nodes - self.wide, node);
                Some((far, level_at(self.wide_levels, far)))
            }
            _ => None,
        }
    }

    fn drain(&self, node: usize) -> Option<M> {
        (node < self.nodes && node < self.outlets).then(|| level_at(self.near_levels, node))
    }
}
