// The numbers of tiles and mouths. No call looks at all tiles: at most at each band of rows and each band of columns once.
ghost use Rattle.std.specs.Prelude.{◌≡◌, ◌+◌, ◌*◌, ◌<◌, ◌≤◌, length, Some, MatchOption, MatchResult};
ghost use Rattle.marks.specs.Refusals.{told, checked, answered};
ghost use Rattle.marks.specs.declared.refusal.Refusal.TheVariants.{NoSuchTile};
ghost use Rattle.tiles.specs.Plans.{plan_of, area_of, abreast, tiles, tile_at, tile_of, tile_checks, crossing, spot_of};
ghost use Rattle.tiles.specs.Mouths.{mouths, passes, mouth_base, tile_mouths, mouth_number};
ghost use Rattle.tiles.specs.Bandings.{Crossed, InRow, InTile, row_base};
ghost use Rattle.tiles.specs.Laws.{Tiled, Numbered};

use crate::block::Block;
use crate::cuts::CutList;
use crate::places::{Mouth, Spot};
use marks::Refusal;

impl CutList {
    // How many tiles there are.
    pub fn tiles(&self) -> usize
        ensures value { result ≡ tiles (plan_of self.now) }
        ensures laws { Tiled (plan_of self.now) }
    {
        self.rows.bands() * self.cols.bands()
    }

    // How many mouths all tiles have together.
    pub fn mouths(&self) -> usize
        ensures value { result ≡ mouths (plan_of self.now) }
        ensures laws { Numbered (plan_of self.now) }
    {
        self.mouths_above(self.rows.bands())
    }

    // How many passes all tiles have together, each tile one fewer than mouths.
    pub fn passes(&self) -> usize
        ensures { result ≡ passes (plan_of self.now) }
    {
        self.mouths() - self.tiles()
    }

    // The rows and columns of a tile.
    pub fn tile(&self, tile: usize) -> Result<Block, Refusal>
        ensures told { answered area_of (told result) ≡ checked (tile_checks (plan_of self.now) tile) (tile_at (plan_of self.now) tile) }
    {
        let (i, j) = self.bands_of(tile)?;
        Ok(self.block(i, j))
    }

    // The number of a tile's first mouth.
    pub fn first_mouth(&self, tile: usize) -> Result<usize, Refusal>
        ensures told { told result ≡ checked (tile_checks (plan_of self.now) tile) (mouth_base (plan_of self.now) tile) }
    {
        let (i, j) = self.bands_of(tile)?;
        Ok(self.mouths_before(i, j))
    }

    // How many mouths a tile has.
    pub fn mouths_of(&self, tile: usize) -> Result<usize, Refusal>
        ensures told { told result ≡ checked (tile_checks (plan_of self.now) tile) (tile_mouths (plan_of self.now) tile) }
    {
        let (i, j) = self.bands_of(tile)?;
        Ok(self.block(i, j).mouths())
    }

    // The tile of a cell and the place in it; none for a cell that is not on the sheet.
    pub fn spot(&self, row: usize, col: usize) -> Option<Spot>
        ensures { result ≡ spot_of (plan_of self.now) row col }
    {
        if row >= self.rows.side || col >= self.cols.side {
            return None;
        }
        let i = self.rows.band_of(row);
        let j = self.cols.band_of(col);
        Some(Spot {
            tile: i * self.cols.bands() + j,
            row: row - self.rows.start(i),
            col: col - self.cols.start(j),
        })
    }

    // The number of a mouth; none for a cell that is not on its tile's border.
    pub fn mouth_number(&self, row: usize, col: usize) -> Option<usize>
        ensures { result ≡ mouth_number (plan_of self.now) row col }
    {
        let i = self.rows.band_of(row);
        let j = self.cols.band_of(col);
        let index = self.block(i, j).mouth_index(row, col)?;
        Some(self.mouths_before(i, j) + index)
    }

    // The cell that has a mouth's number, and its tile; none for a number that no mouth has.
    pub fn mouth(&self, number: usize) -> Option<Mouth>
        ensures { MatchOption result (mouths (plan_of self.now) ≤ number) (λ m. (mouth_number (plan_of self.now) m.row m.col ≡ Some number) × (m.tile ≡ tile_of (plan_of self.now) m.row m.col)) }
    {
        let (i, left) = self.row_of(number)?;
        let (j, index) = self.column_of(i, left)?;
        let (row, col) = self.block(i, j).mouth_place(index)?;
        Some(Mouth {
            tile: i * self.cols.bands() + j,
            row,
            col,
        })
    }

    // The band of rows and the band of columns that cross in a tile.
    fn bands_of(&self, tile: usize) -> Result<(usize, usize), Refusal>
        ensures { MatchResult result (λ b. Crossed (plan_of self.now) tile b.0 b.1) (λ e. (e ≡ NoSuchTile) × (tiles (plan_of self.now) ≤ tile)) }
    {
        if tile >= self.tiles() {
            return Err(Refusal::NoSuchTile);
        }
        let abreast = self.cols.bands();
        Ok((tile / abreast, tile % abreast))
    }

    // The tile where a band of rows and a band of columns cross.
    fn block(&self, i: usize, j: usize) -> Block
        requires { (i ≤ length (plan_of self.now).down) × (j ≤ length (plan_of self.now).across) }
        ensures { area_of result ≡ crossing (plan_of self.now) i j }
    {
        Block {
            top: self.rows.start(i),
            bottom: self.rows.start(i + 1),
            left: self.cols.start(j),
            right: self.cols.start(j + 1),
        }
    }

    // How many mouths the tiles in a band of rows have.
    fn row_mouths(&self, i: usize) -> usize
        requires { i ≤ length (plan_of self.now).down }
        ensures { row_base (plan_of self.now) (i + 1) ≡ row_base (plan_of self.now) i + result }
    {
        let height = self.rows.start(i + 1) - self.rows.start(i);
        if height == 1 {
            return self.cols.side;
        }
        // Two rows are full; in each between, a tile has two mouths, and one if it is one column wide.
        2 * self.cols.side + (2 * self.cols.bands() - self.cols.single) * (height - 2)
    }

    // How many mouths the tiles in the first bands of rows have.
    fn mouths_above(&self, bands: usize) -> usize
        requires { bands ≤ length (plan_of self.now).down + 1 }
        ensures { result ≡ row_base (plan_of self.now) bands }
    {
        let mut sum = 0;
        for i in 0..bands {
            sum += self.row_mouths(i);
        }
        sum
    }

    // How many mouths come before those of the tile where a band of rows and a band of columns cross.
    fn mouths_before(&self, i: usize, j: usize) -> usize
        requires { (i ≤ length (plan_of self.now).down) × (j ≤ length (plan_of self.now).across) }
        ensures { result ≡ mouth_base (plan_of self.now) (i * abreast (plan_of self.now) + j) }
    {
        let mut sum = self.mouths_above(i);
        for k in 0..j {
            sum += self.block(i, k).mouths();
        }
        sum
    }

    // The band of rows that a mouth is in, and how many mouths of that band come before it.
    fn row_of(&self, number: usize) -> Option<(usize, usize)>
        ensures { MatchOption result (mouths (plan_of self.now) ≤ number) (λ f. InRow (plan_of self.now) number f.0 f.1) }
    {
        let mut left = number;
        for i in 0..self.rows.bands() {
            let here = self.row_mouths(i);
            if left < here {
                return Some((i, left));
            }
            left -= here;
        }
        None
    }

    // The band of columns that a mouth of a band of rows is in, and how many mouths of its tile come before it.
    fn column_of(&self, i: usize, before: usize) -> Option<(usize, usize)>
        requires { i ≤ length (plan_of self.now).down }
        ensures { MatchOption result (row_base (plan_of self.now) (i + 1) ≤ row_base (plan_of self.now) i + before) (λ f. InTile (plan_of self.now) (row_base (plan_of self.now) i + before) i f.0 f.1) }
    {
        let mut left = before;
        for j in 0..self.cols.bands() {
            let here = self.block(i, j).mouths();
            if left < here {
                return Some((j, left));
            }
            left -= here;
        }
        None
    }
}
