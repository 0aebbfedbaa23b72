// Linking a tile's mouths by passes: its cells are taken in rising order of level.
ghost use Rattle.std.specs.Prelude.{◌≡◌, ℕ, ◌+◌, ◌-◌, ◌^◌, ◌<◌, ◌≤◌, [], length};
ghost use Rattle.flood.specs.Heaps.{contents, room};
ghost use Rattle.terrain.specs.Terrains.{kind_of};
ghost use Rattle.tiles.specs.Plans.{area_of, height, width};
ghost use Rattle.tiles.specs.Mouths.{border};
ghost use Rattle.surveying.specs.Turns.{cells_of, Flooded, Lined, Besides, Sofar, LinkedAt};

use crate::flooded::FloodedBlock;
use crate::labels::unjoin;
use flood::{Entry, Heap};
use marks::Mark;
use tables::PassRecord;

impl<'a, 'b, M: Mark> FloodedBlock<'a, 'b, M> {
    // Lets a cell wait.
    fn enter(&self, node: usize, heap: &mut Heap<Entry<M>>)
        requires slices { node < cells_of (area_of self.now.block) }
        requires heap { (heap.old.len ≤ node) × (cells_of (area_of self.now.block) ≤ room heap.old) }
        requires lined { Lined (kind_of M.Order M.Mark.lowest) (area_of self.now.block) self.now.levels.now self.now.origins.now node (contents heap.old) }
        ensures heap { (heap.new.len ≤ node + 1) × (cells_of (area_of self.now.block) ≤ room heap.new) }
        ensures lined { Lined (kind_of M.Order M.Mark.lowest) (area_of self.now.block) self.now.levels.now self.now.origins.now (node + 1) (contents heap.new) }
    {
        let Some(level) = self.levels[node] else {
            return;
        };
        let Some(origin) = self.origins[node] else {
            return;
        };
        // There is room.
        let _ = heap.put(Entry {
            level,
            node,
            origin,
        });
    }

    // Lets the cells of the block wait.
    fn line_up(&self, heap: &mut Heap<Entry<M>>)
        requires heap { (contents heap.old ≡ []) × (heap.old.len ≡ 0) × (cells_of (area_of self.now.block) ≤ room heap.old) }
        ensures { Lined (kind_of M.Order M.Mark.lowest) (area_of self.now.block) self.now.levels.now self.now.origins.now (cells_of (area_of self.now.block)) (contents heap.new) }
    {
        for node in 0..self.block.height() * self.block.width() {
            self.enter(node, heap);
        }
    }

    // Notes a tree of passes over the mouths of the block, and says how many they are. Their numbers begin with `first`;
    // the slots and the labels are scratch.
    fn link_mouths(
        &self,
        slots: &mut [Entry<M>],
        first: usize,
        labels: &mut [usize],
        passes: &mut [PassRecord<M>],
    ) -> usize
        requires slices { cells_of (area_of self.now.block) ≤ length slots.old }
        requires labels { (length labels.old ≡ border (height (area_of self.now.block)) (width (area_of self.now.block))) × (first + length labels.old < 2 ^ 64) }
        requires passes { length passes.old + 1 ≡ border (height (area_of self.now.block)) (width (area_of self.now.block)) }
        requires flooded { Flooded (kind_of M.Order M.Mark.lowest) (area_of self.now.block) self.now.levels.now self.now.origins.now }
        ensures { (C : Flooded (kind_of M.Order M.Mark.lowest) (area_of self.now.block) self.now.levels.now self.now.origins.now) → Sofar (kind_of M.Order M.Mark.lowest) (area_of self.now.block) self.now.levels.now self.now.origins.now C first (Besides (kind_of M.Order M.Mark.lowest) (area_of self.now.block) self.now.levels.now self.now.origins.now []) [] labels.new passes.new result }
    {
        unjoin(labels);
        let mut heap = Heap::new(slots);
        self.line_up(&mut heap);
        let mut count = 0;
        while let Some(from) = heap.take() {
            count = self.look_around(from, first, labels, passes, count);
        }
        count
    }

    // Notes a tree of passes over the mouths of the block in a table, from the place `start` on.
    pub(crate) fn link_at(
        &self,
        slots: &mut [Entry<M>],
        first: usize,
        labels: &mut [usize],
        passes: &mut [PassRecord<M>],
        start: usize,
    ) -> usize
        requires slices { cells_of (area_of self.now.block) ≤ length slots.old }
        requires labels { (length labels.old ≡ border (height (area_of self.now.block)) (width (area_of self.now.block))) × (first + length labels.old < 2 ^ 64) × (1 ≤ length labels.old) }
        requires passes { start + (length labels.old - 1) ≤ length passes.old }
        requires flooded { Flooded (kind_of M.Order M.Mark.lowest) (area_of self.now.block) self.now.levels.now self.now.origins.now }
        ensures { (C : Flooded (kind_of M.Order M.Mark.lowest) (area_of self.now.block) self.now.levels.now self.now.origins.now) → LinkedAt (kind_of M.Order M.Mark.lowest) (area_of self.now.block) self.now.levels.now self.now.origins.now C first start passes.old passes.new result }
    {
        let end = start + (labels.len() - 1);
        self.link_mouths(slots, first, labels, &mut passes[start..end])
    }
}
