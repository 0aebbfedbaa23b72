// The bands of a cut side.
ghost use Rattle.std.specs.Prelude.{◌≡◌, ◌+◌, ◌<◌, ◌≤◌, true, false, [], length, take, if◌then◌else◌, Some, None, MatchOption};
ghost use Rattle.tiles.specs.Rules.{band_fits, lawful, side_outside, start, band_of, singles};
ghost use Rattle.tiles.specs.Plans.{cuts_of};

use crate::division::Division;

// How many cuts a side may have.
const MAX_CUTS: usize = 31;

// How many cells long a band may be.
const MAX_BAND: usize = 64;

// Whether a band may reach from one place up to another: it has a cell, and not too many.
fn band_fits(from: usize, to: usize) -> bool
    ensures { result ≡ band_fits from to }
{
    from < to && to - from <= MAX_BAND
}

// How many bands are one cell long, if the cuts keep the rules.
fn single_bands(side: usize, cuts: &[usize]) -> Option<usize>
    ensures { result ≡ (if lawful side cuts.now then Some (singles side cuts.now (length cuts.now + 1)) else None) }
{
    if cuts.len() > MAX_CUTS {
        return None;
    }
    let mut last = 0;
    let mut single = 0;
    for c in cuts {
        if !band_fits(last, *c) {
            return None;
        }
        if *c - last == 1 {
            single += 1;
        }
        last = *c;
    }
    if !band_fits(last, side) {
        return None;
    }
    if side - last == 1 {
        single += 1;
    }
    Some(single)
}

// The cuts, in an array.
fn stored(cuts: &[usize]) -> [usize; 31]
    requires { length cuts.now ≤ 31 }
    ensures { take (length cuts.now) result ≡ cuts.now }
{
    let mut all = [0; 31];
    let n = cuts.len();
    all[0..n].copy_from_slice(cuts);
    all
}

impl Division {
    // The side with these cuts; none if they break a rule.
    pub(crate) fn new(side: usize, cuts: &[usize]) -> Option<Division>
        requires { side_outside side ≡ false }
        ensures { MatchOption result (lawful side cuts.now ≡ false) (λ d. (lawful side cuts.now ≡ true) × (d.side ≡ side) × (cuts_of d ≡ cuts.now)) }
    {
        let single = single_bands(side, cuts)?;
        Some(Division {
            side,
            count: cuts.len(),
            cuts: stored(cuts),
            single,
        })
    }

    // A side of one cell, uncut.
    pub(crate) fn fresh() -> Division
        ensures { (result.side ≡ 1) × (cuts_of result ≡ []) }
    {
        Division {
            side: 1,
            count: 0,
            cuts: [0; 31],
            single: 1,
        }
    }

    // How many bands there are.
    pub(crate) fn bands(&self) -> usize
        ensures { result ≡ length (cuts_of self.now) + 1 }
    {
        self.count + 1
    }

    // Where a band begins; past the last band, the side.
    pub(crate) fn start(&self, band: usize) -> usize
        ensures { result ≡ start self.now.side (cuts_of self.now) band }
    {
        if band == 0 {
            return 0;
        }
        if band > self.count {
            return self.side;
        }
        self.cuts[band - 1]
    }

    // The band that a place is in, and the last band for a place past the side.
    pub(crate) fn band_of(&self, place: usize) -> usize
        ensures { result ≡ band_of (cuts_of self.now) place }
    {
        match self.cuts[0..self.count].binary_search(&place) {
            Ok(k) => k + 1,
            Err(k) => k,
        }
    }
}
