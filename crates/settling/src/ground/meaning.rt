// What the ground of mouths answers.
ghost use Rattle.std.specs.Prelude.{◌≡◌, ℕ, ◌+◌, ◌-◌, ◌<◌, ◌≤◌, ◌&&◌, length, take, drop, if◌then◌else◌, None, nat_le, nat_lt};
ghost use Rattle.std.specs.List.{slice_get};
ghost use Rattle.terrain.specs.Cells.{place as cell_at};
ghost use Rattle.terrain.specs.Terrains.{kind_of};
ghost use Rattle.tiles.specs.Plans.{plan_of, tiles};
ghost use Rattle.tiles.specs.Mouths.{mouths as all_mouths, passes as all_passes, mouth_base, pass_base, tile_mouths};
ghost use Rattle.tiles.proofs.Tilings.{lawful_plan};
ghost use Rattle.tables.specs.Records.{tables};
ghost use Rattle.tables.specs.Links.{around, seam_at, far_end, mouth_crossings, mouth_drain};
ghost use Rattle.tables.proofs.Linked.{mouth_laws};
ghost use Rattle.settling.specs.Grounds.{Stands};

use crate::ground::MouthGround;
use flood::Ground;
use marks::{Mark, higher};
use sheets::{Place, Sides};
use std::ops::Range;
use tables::{MouthRecord, PassRecord};
use tiles::{CutList, Mouth};

impl<'a, 'b, M: Mark> Ground for MouthGround<'a, 'b, M> {
    type Mark = M;

    ghost nodes = { λ s. all_mouths (plan_of s.cuts) };

    ghost crossings = { λ s. mouth_crossings (kind_of M.Order M.Mark.lowest) (plan_of s.cuts) (tables s.mouths.now s.passes.now) };

    ghost drain = { λ s. mouth_drain (kind_of M.Order M.Mark.lowest) (plan_of s.cuts) (tables s.mouths.now s.passes.now) };

    ghost laws = { λ s. mouth_laws (kind_of M.Order M.Mark.lowest) (plan_of s.cuts) (tables s.mouths.now s.passes.now) (lawful_plan s.cuts) };

    fn nodes(&self) -> usize {
        self.cuts.mouths()
    }

    // Those over seams come first, and then those by the tile's passes.
    fn crossing(&self, node: usize, place: usize) -> Option<(usize, M)> {
        let mouth = self.cuts.mouth(node)?;
        let numbers = tile_numbers(&self.cuts, mouth.tile);
        let passes = tile_passes(&self.cuts, self.passes, mouth.tile, &numbers);
        let seams = (0..9).filter_map(|k| seam_link(&self.cuts, self.mouths, node, mouth, k));
        let links = passes
            .iter()
            .filter_map(|pass| pass_link(*pass, node, &numbers));
        seams.chain(links).nth(place)
    }

    fn drain(&self, node: usize) -> Option<M> {
        let mouth = self.cuts.mouth(node)?;
        let mouths = self.mouths;
        let edge = self.cuts.sides().on_edge(mouth.row, mouth.col);
        edge.then_some(mouths[node].mark)
    }
}

// Of the nine cells around a cell, row by row, itself among them, one by its place; none past the edge.
fn around(sides: Sides, row: usize, col: usize, k: usize) -> Option<Place>
    requires { (row ≤ 2048) × ((col ≤ 2048) × (k < 9)) }
    ensures { result ≡ around sides.rows sides.cols (cell_at row col) k }
{
    let y = row + k / 3;
    let x = col + k % 3;
    let inside = 1 <= y && y <= sides.rows && 1 <= x && x <= sides.cols;
    inside.then(|| Place {
        row: y - 1,
        col: x - 1,
    })
}

// The link from a mouth over a seam to one of the nine cells around it.
fn seam_link<M: Mark>(
    cuts: &CutList,
    mouths: &[MouthRecord<M>],
    node: usize,
    mouth: Mouth,
    k: usize,
) -> Option<(usize, M)>
    requires room { all_mouths (plan_of cuts.now) ≤ length mouths.now }
    requires here { Stands (plan_of cuts.now) node mouth }
    requires k { k < 9 }
    ensures { result ≡ seam_at (kind_of M.Order M.Mark.lowest) (plan_of cuts.now) mouths.now node k }
{
    let sides = cuts.sides();
    let cell = around(sides, mouth.row, mouth.col, k)?;
    let spot = cuts.spot(cell.row, cell.col)?;
    if spot.tile == mouth.tile {
        return None;
    }
    let far = cuts.mouth_number(cell.row, cell.col)?;
    Some((far, higher(mouths[node].mark, mouths[far].mark)))
}

// The numbers of a tile's mouths.
fn tile_numbers(cuts: &CutList, tile: usize) -> Range<usize>
    requires { tile < tiles (plan_of cuts.now) }
    ensures start { result.start ≡ mouth_base (plan_of cuts.now) tile }
    ensures end { result.end ≡ mouth_base (plan_of cuts.now) (tile + 1) }
{
    match (cuts.first_mouth(tile), cuts.mouths_of(tile)) {
        (Ok(first), Ok(count)) => first..first + count,
        _ => unreachable(),
    }
}

// The records of a tile's passes, one fewer than its mouths.
fn tile_passes<'a, M>(
    cuts: &CutList,
    passes: &'a [PassRecord<M>],
    tile: usize,
    numbers: &Range<usize>,
) -> &'a [PassRecord<M>]
    requires room { all_passes (plan_of cuts.now) ≤ length passes.now }
    requires tile { tile < tiles (plan_of cuts.now) }
    requires start { numbers.now.start ≡ mouth_base (plan_of cuts.now) tile }
    requires end { numbers.now.end ≡ mouth_base (plan_of cuts.now) (tile + 1) }
    ensures { result.now ≡ take (tile_mouths (plan_of cuts.now) tile - 1) (drop (pass_base (plan_of cuts.now) tile) passes.now) }
{
    let start = numbers.start - tile;
    let count = numbers.end - numbers.start - 1;
    &passes[start..start + count]
}

// The link from a mouth by a pass, if that joins it to another, and both have numbers among these.
fn pass_link<M: Mark>(
    pass: PassRecord<M>,
    node: usize,
    numbers: &Range<usize>,
) -> Option<(usize, M)>
    ensures { result ≡ (if (nat_le numbers.now.start pass.from && nat_lt pass.from numbers.now.end) && (nat_le numbers.now.start pass.to && nat_lt pass.to numbers.now.end) then far_end node pass else None) }
{
    // Most passes join other mouths, so that is asked first.
    if pass.from != node && pass.to != node {
        return None;
    }
    if !numbers.contains(&pass.from) || !numbers.contains(&pass.to) {
        return None;
    }
    if pass.from == node {
        return Some((pass.to, pass.level));
    }
    Some((pass.from, pass.level))
}
