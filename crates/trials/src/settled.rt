// Settling the mouths of a sheet of two hollows, by tables written by hand.
use flood::Entry;
use marks::{Height, Mark, Refusal};
use round::{Call, Round};
use settling::settle_mouths;
use std::test::Fail;
use tables::{MouthRecord, PassRecord};
use tiles::CutList;

// The marks of the mouths, in the order of their numbers:
//
//     9 9 9 | 9 9 9        0 1 2 | 10 11 12
//     9 . 3 | 8 . 9        3   4 | 13    14
//     9 . 2 | 7 . 5        5   6 | 15    16
//     9 9 9 | 9 9 9        7 8 9 | 17 18 19
const MARKS: [i16; 20] = [9, 9, 9, 9, 3, 9, 2, 9, 9, 9, 9, 9, 9, 8, 9, 7, 5, 9, 9, 9];

// A tree for each tile. Inside the left one 4 and 6 touch; in the right one a walk from 15 to 16 is nowhere above 7.
const PASSES: [(usize, usize, i16); 18] = [
    (4, 6, 3),
    (0, 1, 9),
    (1, 2, 9),
    (2, 4, 9),
    (0, 3, 9),
    (3, 5, 9),
    (5, 7, 9),
    (7, 8, 9),
    (8, 9, 9),
    (15, 16, 7),
    (13, 15, 8),
    (10, 11, 9),
    (11, 12, 9),
    (10, 13, 9),
    (12, 14, 9),
    (16, 19, 9),
    (19, 18, 9),
    (18, 17, 9),
];

// The height of so many decimetres. No crate can use another's helpers of tests.
fn height(dm: i16) -> Height {
    Height::new(dm).unwrap_or(Height::void())
}

// The sheet, cut at column 3.
fn cuts() -> Result<CutList, Refusal> {
    CutList::new(4, &[], 6, &[3])
}

// The table of mouths.
fn mouths() -> [MouthRecord<Height>; 20] {
    MARKS.map(|dm| MouthRecord {
        mark: height(dm),
        sill: None,
    })
}

// The table of passes.
fn passes() -> [PassRecord<Height>; 18] {
    PASSES.map(|(from, to, dm)| PassRecord {
        from,
        to,
        level: height(dm),
    })
}

// The table of mouths after settling, with so many passes and so many levels lent.
fn settled(passes_lent: usize, levels_lent: usize) -> Result<[MouthRecord<Height>; 20], Refusal> {
    let mut mouths = mouths();
    let passes = passes();
    let mut levels = [None; 20];
    let mut origins = [None; 20];
    let mut heap = [Entry {
        level: Height::void(),
        node: 0,
        origin: 0,
    }; 20];
    let passes_end = passes_lent.min(18);
    let levels_end = levels_lent.min(20);
    settle_mouths(
        &cuts()?,
        &mut mouths,
        &passes[0..passes_end],
        &mut levels[0..levels_end],
        &mut origins,
        &mut heap,
    )?;
    Ok(mouths)
}

// The number of the refusal; none if settling is accepted.
fn refusal(passes_lent: usize, levels_lent: usize) -> Option<u8> {
    let refusal = settled(passes_lent, levels_lent).err()?;
    Some(refusal.number())
}

// Both mouths of the left hollow run off over the 7. Were a higher crossing kept for a lower one they would have 8, and
// were a tile's border the sheet's edge, 3 and 2.
#[test]
fn hollows_run_off(rt: HostRuntime) -> Result<(), Fail> {
    let mouths = settled(18, 20)?;
    assert_eq!(rt; mouths[4].sill, Some(height(7)));
    assert_eq!(rt; mouths[6].sill, Some(height(7)));
    assert_eq!(rt; mouths[15].sill, Some(height(7)));
    assert_eq!(rt; mouths[16].sill, Some(height(5)));
    Ok(())
}

#[test]
fn exact_and_one_less(rt: HostRuntime) {
    assert_eq!(rt; refusal(18, 20), None);
    assert_eq!(rt; refusal(17, 20), Some(4));
    assert_eq!(rt; refusal(18, 19), Some(5));
    assert_eq!(rt; refusal(17, 19), Some(4));
}

// A new round takes surveys of its two tiles and nothing else.
#[test]
fn an_open_round(rt: HostRuntime) -> Result<(), Fail> {
    let mouths = mouths();
    let passes = passes();
    let round = Round::new(cuts()?, &mouths, &passes)?;
    assert_eq!(rt; round.decide(Call::Survey(1)), Ok(()));
    assert_eq!(rt; round.decide(Call::Survey(2)), Err(Refusal::NoSuchTile));
    assert_eq!(rt; round.decide(Call::Settle), Err(Refusal::TilesMissing));
    assert_eq!(rt; round.decide(Call::Finish(0)), Err(Refusal::RoundOpen));
    let few = Round::new(cuts()?, &mouths[0..19], &passes);
    assert_eq!(rt; few.err(), Some(Refusal::WrongLength));
    Ok(())
}
