// Examples, each with the nearest that is refused. The expected numbers are counted by hand on drawn sheets.
use crate::{CutList, Mouth, Spot};
use marks::Refusal;
use sheets::Sides;
use std::process::Abort;
use std::test::Fail;

// The number of the refusal of sides and cuts; none if they are accepted.
fn refusal(rows: usize, down: &[usize], cols: usize, across: &[usize]) -> Option<u8> {
    let refusal = CutList::new(rows, down, cols, across).err()?;
    Some(refusal.number())
}

// 32 cuts, each so far from the one before.
fn every(step: u8) -> [usize; 32] {
    std::array::from_fn(|k| (k + 1) * usize::from(step))
}

// The mouths of an uncut sheet are these, in this order, and no others.
fn listed(rt: &impl Abort, rows: usize, cols: usize, cells: &[(usize, usize)]) -> Result<(), Fail> {
    let list = CutList::new(rows, &[], cols, &[])?;
    assert_eq!(rt; list.mouths(), cells.len());
    for (k, cell) in cells.iter().enumerate() {
        let (row, col) = *cell;
        assert_eq!(rt; list.mouth(k), Some(Mouth { tile: 0, row, col }));
        assert_eq!(rt; list.mouth_number(row, col), Some(k));
    }
    assert_eq!(rt; list.mouth(cells.len()), None);
    Ok(())
}

#[test]
fn sides_are_checked_first(rt: HostRuntime) {
    let cuts = every(64);
    assert_eq!(rt; refusal(2048, &cuts[0..31], 2048, &cuts[0..31]), None);
    assert_eq!(rt; refusal(2049, &cuts[0..31], 2048, &cuts[0..31]), Some(1));
    assert_eq!(rt; refusal(2048, &cuts[0..31], 2049, &cuts[0..31]), Some(1));
    assert_eq!(rt; refusal(0, &[], 1, &[]), Some(1));
    assert_eq!(rt; refusal(1, &[0], 0, &[]), Some(1));
    assert_eq!(rt; refusal(1, &[0], 1, &[]), Some(2));
}

#[test]
fn cuts_keep_the_rules(rt: HostRuntime) {
    assert_eq!(rt; refusal(64, &[], 1, &[]), None);
    assert_eq!(rt; refusal(65, &[], 1, &[]), Some(2));
    assert_eq!(rt; refusal(128, &[64], 1, &[]), None);
    assert_eq!(rt; refusal(128, &[65], 1, &[]), Some(2));
    assert_eq!(rt; refusal(1, &[], 8, &[1, 7]), None);
    assert_eq!(rt; refusal(1, &[], 8, &[0, 7]), Some(2));
    assert_eq!(rt; refusal(1, &[], 8, &[1, 8]), Some(2));
    assert_eq!(rt; refusal(1, &[], 8, &[4, 4]), Some(2));
    let cuts = every(1);
    assert_eq!(rt; refusal(1, &[], 40, &cuts[0..31]), None);
    assert_eq!(rt; refusal(1, &[], 40, &cuts), Some(2));
}

#[test]
fn a_refused_list_stays(rt: HostRuntime) -> Result<(), Fail> {
    let mut list = CutList::fresh();
    assert_eq!(rt; list.sides(), Sides::new(1, 1)?);
    list.recut(4, &[2], 6, &[2, 5])?;
    assert_eq!(rt; list.recut(4, &[4], 6, &[]), Err(Refusal::CutRule));
    assert_eq!(rt; list.sides(), Sides::new(4, 6)?);
    assert_eq!(rt; list.tiles(), 6);
    Ok(())
}

#[test]
fn mouths_in_reading_order(rt: HostRuntime) -> Result<(), Fail> {
    listed(&rt, 1, 1, &[(0, 0)])?;
    listed(&rt, 1, 5, &[(0, 0), (0, 1), (0, 2), (0, 3), (0, 4)])?;
    listed(&rt, 5, 1, &[(0, 0), (1, 0), (2, 0), (3, 0), (4, 0)])?;
    listed(&rt, 2, 2, &[(0, 0), (0, 1), (1, 0), (1, 1)])?;
    listed(
        &rt,
        3,
        3,
        &[
            (0, 0),
            (0, 1),
            (0, 2),
            (1, 0),
            (1, 2),
            (2, 0),
            (2, 1),
            (2, 2),
        ],
    )?;
    assert_eq!(rt; CutList::new(3, &[], 3, &[])?.mouth_number(1, 1), None);
    Ok(())
}

// The cell of a mouth of an uncut sheet of 64 by 64 cells.
fn in_large(number: usize) -> Option<(usize, usize)> {
    let list = CutList::new(64, &[], 64, &[]).ok()?;
    let mouth = list.mouth(number)?;
    Some((mouth.row, mouth.col))
}

#[test]
fn mouths_of_the_largest_tile(rt: HostRuntime) -> Result<(), Fail> {
    assert_eq!(rt; CutList::new(64, &[], 64, &[])?.mouths(), 252);
    assert_eq!(rt; in_large(0), Some((0, 0)));
    assert_eq!(rt; in_large(63), Some((0, 63)));
    assert_eq!(rt; in_large(64), Some((1, 0)));
    assert_eq!(rt; in_large(65), Some((1, 63)));
    assert_eq!(rt; in_large(187), Some((62, 63)));
    assert_eq!(rt; in_large(188), Some((63, 0)));
    assert_eq!(rt; in_large(251), Some((63, 63)));
    assert_eq!(rt; in_large(252), None);
    Ok(())
}

// Bands of 3, 1 and 4 rows and of 1 and 4 columns:
//
//     0 1 1 1 1
//     0 1 . . 1
//     0 1 1 1 1
//     2 3 3 3 3
//     4 5 5 5 5
//     4 5 . . 5
//     4 5 . . 5
//     4 5 5 5 5
#[test]
fn numbers_of_a_cut_sheet(rt: HostRuntime) -> Result<(), Fail> {
    let list = CutList::new(8, &[3, 4], 5, &[1])?;
    assert_eq!(rt; list.tiles(), 6);
    assert_eq!(rt; list.mouths(), 34);
    assert_eq!(rt; list.passes(), 28);
    assert_eq!(rt; list.first_mouth(3), Ok(14));
    assert_eq!(rt; list.first_mouth(5), Ok(22));
    assert_eq!(rt; list.mouths_of(1), Ok(10));
    assert_eq!(rt; list.mouths_of(6), Err(Refusal::NoSuchTile));
    assert_eq!(rt; list.mouth_number(5, 4), Some(27));
    assert_eq!(rt; list.mouth_number(5, 2), None);
    assert_eq!(rt; list.mouth_number(8, 4), None);
    assert_eq!(rt;
        list.mouth(27),
        Some(Mouth {
            tile: 5,
            row: 5,
            col: 4,
        })
    );
    assert_eq!(rt;
        list.spot(5, 2),
        Some(Spot {
            tile: 5,
            row: 1,
            col: 1,
        })
    );
    assert_eq!(rt; list.spot(5, 5), None);
    Ok(())
}

#[test]
fn rows_and_columns_of_a_tile(rt: HostRuntime) -> Result<(), Fail> {
    let list = CutList::new(8, &[3, 4], 5, &[1])?;
    let block = list.tile(5)?;
    assert_eq!(rt; (block.top, block.bottom), (4, 8));
    assert_eq!(rt; (block.left, block.right), (1, 5));
    assert_eq!(rt; block.mouth_index(4, 0), None);
    assert_eq!(rt; block.mouth_index(4, 1), Some(0));
    assert_eq!(rt; block.mouth_place(11), Some((7, 4)));
    assert_eq!(rt; block.mouth_place(12), None);
    Ok(())
}

#[test]
fn the_most_tiles(rt: HostRuntime) -> Result<(), Fail> {
    let cuts = every(64);
    let list = CutList::new(2048, &cuts[0..31], 2048, &cuts[0..31])?;
    assert_eq!(rt; list.tiles(), 1024);
    assert_eq!(rt; list.mouths(), 258048);
    assert_eq!(rt; list.passes(), 257024);
    assert_eq!(rt; list.first_mouth(1023), Ok(257796));
    assert_eq!(rt;
        list.mouth(258047),
        Some(Mouth {
            tile: 1023,
            row: 2047,
            col: 2047,
        })
    );
    Ok(())
}
