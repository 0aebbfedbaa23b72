// Examples of sheets: what is accepted, and the nearest that is refused.
use crate::copies::{Extent, Place, copy_rectangle};
use crate::packed::Packed;
use crate::raster::Raster;
use crate::sheet::{Sheet, WritableSheet};
use crate::works::{Work, on_packed, on_raster};
use marks::{Class, Height, Mark, Refusal};
use std::test::Fail;

// Reads the last cell of a sheet.
#[derive(Drop)]
struct Last {
    answer: Result<(), Refusal>,
    class: [Class; 1],
}

impl Work<Class> for Last {
    ghost does = { λ _ _ _ _. Unit {0} };

    fn run<T: WritableSheet<Mark = Class>>(&mut self, sheet: &mut T) {
        let sides = sheet.sides();
        self.answer = sheet.read(sides.rows - 1, sides.cols - 1, &mut self.class);
    }
}

#[test]
fn makes_rasters(rt: HostRuntime) {
    let mut work = Last {
        answer: Err(Refusal::Size),
        class: [Class::Void],
    };
    let mut widest = [Class::Moist; 2048];
    let mut wider = [Class::Moist; 2049];
    let mut short = [Class::Moist; 5];
    let mut long = [Class::Moist; 7];
    let mut none: [Class; 0] = [];
    assert_eq!(rt; on_raster(1, 2048, &mut widest, &mut work), Ok(()));
    assert_eq!(rt; work.answer, Ok(()));
    assert_eq!(rt; work.class[0], Class::Moist);
    assert_eq!(rt;
        on_raster(1, 2049, &mut wider, &mut work),
        Err(Refusal::Size)
    );
    assert_eq!(rt; on_raster(0, 3, &mut none, &mut work), Err(Refusal::Size));
    assert_eq!(rt;
        on_raster(2, 3, &mut short, &mut work),
        Err(Refusal::WrongLength)
    );
    assert_eq!(rt;
        on_raster(2, 3, &mut long, &mut work),
        Err(Refusal::WrongLength)
    );
}

#[test]
fn makes_packed_sheets(rt: HostRuntime) {
    let mut work = Last {
        answer: Ok(()),
        class: [Class::Open],
    };
    let mut kept = [0, 6];
    let mut dead = [0, 6, 0, 7];
    let mut odd = [0, 6, 0];
    assert_eq!(rt; on_packed(2, 1, &mut dead, &mut work), Ok(()));
    assert_eq!(rt; work.answer, Err(Refusal::DeadCell));
    assert_eq!(rt; work.class[0], Class::Open);
    assert_eq!(rt; on_packed(1, 1, &mut kept, &mut work), Ok(()));
    assert_eq!(rt; work.class[0], Class::Kept);
    assert_eq!(rt;
        on_packed(2, 1, &mut odd, &mut work),
        Err(Refusal::WrongLength)
    );
    assert_eq!(rt;
        on_packed(1, 1, &mut odd, &mut work),
        Err(Refusal::WrongLength)
    );
    assert_eq!(rt;
        on_packed(2049, 0, &mut kept, &mut work),
        Err(Refusal::Size)
    );
}

#[test]
fn runs_of_a_raster(rt: HostRuntime) -> Result<(), Fail> {
    let mut cells = [
        Class::Open,
        Class::Strip,
        Class::Moist,
        Class::Wet,
        Class::Peat,
        Class::Kept,
    ];
    let mut out = [Class::Void; 2];
    let mut none: [Class; 0] = [];
    let mut sheet = Raster::new(2, 3, &mut cells)?;
    assert_eq!(rt; sheet.read(1, 1, &mut out), Ok(()));
    assert_eq!(rt; sheet.read(1, 2, &mut out), Err(Refusal::Outside));
    assert_eq!(rt; sheet.read(2, 0, &mut out), Err(Refusal::Outside));
    assert_eq!(rt; sheet.read(1, 3, &mut none), Ok(()));
    assert_eq!(rt; sheet.read(1, 4, &mut none), Err(Refusal::Outside));
    assert_eq!(rt; sheet.write(0, 2, &out), Err(Refusal::Outside));
    assert_eq!(rt; sheet.write(0, 1, &out), Ok(()));
    assert_eq!(rt; cells[0], Class::Open);
    assert_eq!(rt; cells[1], Class::Peat);
    assert_eq!(rt; cells[2], Class::Kept);
    assert_eq!(rt; cells[3], Class::Wet);
    Ok(())
}

#[test]
fn runs_of_a_packed_sheet(rt: HostRuntime) -> Result<(), Fail> {
    let void = Height::void();
    let high = Height::new(300).ok_or(Refusal::Size)?;
    let low = Height::new(-1).ok_or(Refusal::Size)?;
    let marks = [high, low, void];
    let mut bytes = [0; 6];
    let mut out = [void; 2];
    let mut none: [Height; 0] = [];
    let mut sheet = Packed::new(1, 3, &void, &mut bytes)?;
    assert_eq!(rt; sheet.write(0, 1, &marks), Err(Refusal::Outside));
    assert_eq!(rt; sheet.write(0, 0, &marks), Ok(()));
    assert_eq!(rt; sheet.read(0, 1, &mut out), Ok(()));
    assert_eq!(rt; sheet.read(0, 2, &mut out), Err(Refusal::Outside));
    assert_eq!(rt; sheet.read(0, 3, &mut none), Ok(()));
    assert_eq!(rt; sheet.read(1, 0, &mut none), Err(Refusal::Outside));
    assert_eq!(rt; out[0].decimetres(), Some(-1));
    assert_eq!(rt; out[1].decimetres(), None);
    assert_eq!(rt; bytes, [0x01, 0x2C, 0xFF, 0xFF, 0x80, 0x00]);
    Ok(())
}

#[test]
fn copies_between_sheets(rt: HostRuntime) -> Result<(), Fail> {
    let first = Place { row: 0, col: 0 };
    let second = Place { row: 0, col: 1 };
    let last = Place { row: 1, col: 1 };
    let square = Extent {
        height: 2,
        width: 2,
    };
    let void = Class::Void;
    let mut cells = [Class::Open, Class::Strip, Class::Moist, Class::Wet];
    let mut bytes = [0, 7, 0, 7, 0, 7, 0, 7, 0, 7, 0, 7];
    let mut scratch = [void; 2];
    let mut short = [void; 1];
    let mut raster = Raster::new(2, 2, &mut cells)?;
    let mut packed = Packed::new(2, 3, &void, &mut bytes)?;
    assert_eq!(rt;
        copy_rectangle(&raster, first, &mut packed, last, square, &mut scratch),
        Err(Refusal::Outside)
    );
    assert_eq!(rt;
        copy_rectangle(&raster, first, &mut packed, second, square, &mut short),
        Err(Refusal::ScratchShort)
    );
    assert_eq!(rt;
        copy_rectangle(&raster, first, &mut packed, second, square, &mut scratch),
        Ok(())
    );
    assert_eq!(rt;
        copy_rectangle(&packed, first, &mut raster, first, square, &mut scratch),
        Err(Refusal::DeadCell)
    );
    let pair = Extent {
        height: 1,
        width: 2,
    };
    assert_eq!(rt;
        copy_rectangle(&packed, last, &mut raster, first, pair, &mut scratch),
        Ok(())
    );
    assert_eq!(rt; cells[0], Class::Moist);
    assert_eq!(rt; cells[1], Class::Wet);
    assert_eq!(rt; cells[2], Class::Moist);
    assert_eq!(rt; bytes, [0, 7, 0, 1, 0, 2, 0, 7, 0, 3, 0, 4]);
    Ok(())
}
