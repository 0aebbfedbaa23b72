// Looking from a taken cell at the cells around it.
ghost use Rattle.std.specs.Prelude.{◌≡◌, ℕ, ◌+◌, ◌^◌, ◌<◌, ◌≤◌, length};
ghost use Rattle.tiles.specs.Plans.{area_of};
ghost use Rattle.tiles.specs.Mouths.{mouth_index};
ghost use Rattle.terrain.specs.Terrains.{kind_of};
ghost use Rattle.seams.specs.Sheets.{cell_in};
ghost use Rattle.surveying.specs.Turns.{cells_of, Near, Stands, MouthIs, SomeTurn, GoesOn};

use crate::flooded::FloodedBlock;
use crate::labels::join;
use flood::Entry;
use marks::Mark;
use tables::PassRecord;

impl<'a, 'b, M: Mark> FloodedBlock<'a, 'b, M> {
    // The number among the block's mouths of the cell with this number in the block; none for a cell that is no mouth of it.
    fn mouth_of(&self, cell: usize) -> Option<usize>
        requires { cell < cells_of (area_of self.now.block) }
        ensures { result ≡ mouth_index (area_of self.now.block) (cell_in (area_of self.now.block) cell).row (cell_in (area_of self.now.block) cell).col }
    {
        let width = self.block.width();
        self.block.mouth_index(
            self.block.top + cell / width,
            self.block.left + cell % width,
        )
    }

    // Looks from a taken cell, whose origin is the block's mouth x, at a cell near it: if that one's origin is another mouth,
    // and its level not above, the two mouths are joined at the taken cell's level. Says how many passes are kept then.
    fn look(
        &self,
        from: Entry<M>,
        x: usize,
        cell: usize,
        first: usize,
        labels: &mut [usize],
        passes: &mut [PassRecord<M>],
        count: usize,
    ) -> usize
        requires slices { first + length labels.old < 2 ^ 64 }
        requires from { Stands (kind_of M.Order M.Mark.lowest) (area_of self.now.block) self.now.levels.now self.now.origins.now from }
        requires mouth { MouthIs (kind_of M.Order M.Mark.lowest) (area_of self.now.block) self.now.levels.now self.now.origins.now from.origin x }
        requires near { Near (area_of self.now.block) from.node cell }
        requires turn { SomeTurn (kind_of M.Order M.Mark.lowest) (area_of self.now.block) self.now.levels.now self.now.origins.now first from cell labels.old passes.old count }
        ensures { GoesOn (kind_of M.Order M.Mark.lowest) (area_of self.now.block) self.now.levels.now self.now.origins.now first from cell labels.old passes.old count (cell + 1) labels.new passes.new result }
    {
        let Some(origin) = self.origins[cell] else {
            return count;
        };
        if origin == from.origin {
            return count;
        }
        let Some(level) = self.levels[cell] else {
            return count;
        };
        if !level.at_most(&from.level) {
            return count;
        }
        let Some(y) = self.mouth_of(origin) else {
            return count;
        };
        join(labels, passes, count, first, x, y, from.level)
    }

    // Looks from a taken cell at the cells from `start` up to, but not with, `end`.
    fn look_along(
        &self,
        from: Entry<M>,
        x: usize,
        start: usize,
        end: usize,
        first: usize,
        labels: &mut [usize],
        passes: &mut [PassRecord<M>],
        mut count: usize,
    ) -> usize
        requires slices { first + length labels.old < 2 ^ 64 }
        requires from { Stands (kind_of M.Order M.Mark.lowest) (area_of self.now.block) self.now.levels.now self.now.origins.now from }
        requires mouth { MouthIs (kind_of M.Order M.Mark.lowest) (area_of self.now.block) self.now.levels.now self.now.origins.now from.origin x }
        requires near { (start ≤ end) × ((v : ℕ) → start ≤ v → v < end → Near (area_of self.now.block) from.node v) }
        requires turn { SomeTurn (kind_of M.Order M.Mark.lowest) (area_of self.now.block) self.now.levels.now self.now.origins.now first from start labels.old passes.old count }
        ensures { GoesOn (kind_of M.Order M.Mark.lowest) (area_of self.now.block) self.now.levels.now self.now.origins.now first from start labels.old passes.old count end labels.new passes.new result }
    {
        for cell in start..end {
            count = self.look(from, x, cell, first, labels, passes, count);
        }
        count
    }

    // Looks from a taken cell at all cells around it, row by row.
    pub(crate) fn look_around(
        &self,
        from: Entry<M>,
        first: usize,
        labels: &mut [usize],
        passes: &mut [PassRecord<M>],
        mut count: usize,
    ) -> usize
        requires slices { first + length labels.old < 2 ^ 64 }
        requires from { Stands (kind_of M.Order M.Mark.lowest) (area_of self.now.block) self.now.levels.now self.now.origins.now from }
        requires turn { SomeTurn (kind_of M.Order M.Mark.lowest) (area_of self.now.block) self.now.levels.now self.now.origins.now first from 0 labels.old passes.old count }
        ensures { GoesOn (kind_of M.Order M.Mark.lowest) (area_of self.now.block) self.now.levels.now self.now.origins.now first from 0 labels.old passes.old count (cells_of (area_of self.now.block)) labels.new passes.new result }
    {
        let Some(x) = self.mouth_of(from.origin) else {
            return count;
        };
        let width = self.block.width();
        let row = from.node / width;
        let col = from.node % width;
        let left = col.saturating_sub(1);
        let right = (col + 2).min(width);
        for near in row.saturating_sub(1)..(row + 2).min(self.block.height()) {
            let start = near * width;
            count = self.look_along(
                from,
                x,
                start + left,
                start + right,
                first,
                labels,
                passes,
                count,
            );
        }
        count
    }
}
