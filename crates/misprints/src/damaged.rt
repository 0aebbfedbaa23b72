// Damaged texts of one sheet, each with the length of the longest beginning that it shares with any text of the kind. The places
// were counted by hand: the first line of a sheet of 1 × 1 heights has 18 bytes, its row 8, its last line 2.
use marks::{Class, CodedMark, Height, Refusal};
use std::process::Abort;
use std::test::Fail;
use texts::check_text;

// The text is refused at a place.
fn refused<M: CodedMark>(rt: &impl Abort, text: &str, place: usize) -> Result<(), Fail> {
    match check_text::<M>(text.as_bytes()) {
        Ok(_) => Err(Fail::new("accepted")),
        Err(refusal) => {
            assert_eq!(rt; refusal.number(), 8);
            assert_eq!(rt; refusal.place(), place);
            Ok(())
        }
    }
}

// The text is that of a sheet of such sides.
fn accepted<M: CodedMark>(
    rt: &impl Abort,
    text: &str,
    rows: usize,
    cols: usize,
) -> Result<(), Fail> {
    match check_text::<M>(text.as_bytes()) {
        Ok(sides) => {
            assert_eq!(rt; (sides.rows, sides.cols), (rows, cols));
            Ok(())
        },
        Err(_) => Err(Fail::new("refused")),
    }
}

#[test]
fn accepts(rt: HostRuntime) -> Result<(), Fail> {
    accepted::<Height>(&rt, "(sheet height 1 1\n(row -32767)\n)\n", 1, 1)?;
    accepted::<Height>(&rt, "(sheet height 1 2\n(row 32767 .)\n)\n", 1, 2)?;
    accepted::<Class>(&rt, "(sheet class 2 3\n(row o s m)\n(row w p k)\n)\n", 2, 3)
}

#[test]
fn first_words(rt: HostRuntime) -> Result<(), Fail> {
    refused::<Height>(&rt, "", 0)?;
    refused::<Height>(&rt, "x", 0)?;
    refused::<Height>(&rt, "(", 1)?;
    refused::<Height>(&rt, "(shoot", 3)?;
    refused::<Height>(&rt, "(sheet  height 1 1\n", 7)?;
    refused::<Height>(&rt, "(sheet class 1 1\n", 7)?;
    refused::<Height>(&rt, "(sheet heigh 1 1\n", 12)?;
    refused::<Height>(&rt, "(sheet heights 1 1\n", 13)?;
    refused::<Class>(&rt, "(sheet height 1 1\n", 7)
}

#[test]
fn sides(rt: HostRuntime) -> Result<(), Fail> {
    refused::<Height>(&rt, "(sheet height 0 1\n", 14)?;
    refused::<Height>(&rt, "(sheet height 01 1\n", 14)?;
    refused::<Height>(&rt, "(sheet height -1 1\n", 14)?;
    refused::<Height>(&rt, "(sheet height 2048 1\n", 21)?;
    refused::<Height>(&rt, "(sheet height 2049 1\n", 17)?;
    refused::<Height>(&rt, "(sheet height 20480 1\n", 18)?;
    refused::<Height>(&rt, "(sheet height 1 \n", 16)?;
    refused::<Height>(&rt, "(sheet height 1 1 \n", 17)?;
    refused::<Height>(&rt, "(sheet height 1 1(row 7)\n", 17)?;
    refused::<Height>(&rt, "(sheet height 1 1\r\n", 17)
}

#[test]
fn row_words(rt: HostRuntime) -> Result<(), Fail> {
    refused::<Height>(&rt, "(sheet height 1 1\n row 7)\n", 18)?;
    refused::<Height>(&rt, "(sheet height 1 1\n(rows 7)\n", 22)?;
    refused::<Height>(&rt, "(sheet height 1 1\n(row7)\n", 22)?;
    refused::<Height>(&rt, "(sheet height 1 1\n(row  7)\n", 23)?;
    refused::<Height>(&rt, "(sheet height 1 1\n(row )\n", 23)?;
    refused::<Height>(&rt, "(sheet height 1 1\n(row 7 )\n", 24)?;
    refused::<Height>(&rt, "(sheet height 1 1\n(row 7 8)\n", 24)?;
    refused::<Height>(&rt, "(sheet height 1 1\n(row 7\n", 24)?;
    refused::<Height>(&rt, "(sheet height 1 1\n(row 7))\n", 25)?;
    refused::<Height>(&rt, "(sheet height 1 1\n(row 7) \n", 25)
}

#[test]
fn marks(rt: HostRuntime) -> Result<(), Fail> {
    refused::<Height>(&rt, "(sheet height 1 1\n(row 32768)\n)\n", 27)?;
    refused::<Height>(&rt, "(sheet height 1 1\n(row -32768)\n)\n", 28)?;
    refused::<Height>(&rt, "(sheet height 1 1\n(row -0)\n)\n", 24)?;
    refused::<Height>(&rt, "(sheet height 1 1\n(row 07)\n)\n", 24)?;
    refused::<Height>(&rt, "(sheet height 1 1\n(row +7)\n)\n", 23)?;
    refused::<Height>(&rt, "(sheet height 1 1\n(row .5)\n)\n", 24)?;
    refused::<Height>(&rt, "(sheet height 1 1\n(row o)\n)\n", 23)?;
    refused::<Class>(&rt, "(sheet class 1 1\n(row x)\n)\n", 22)?;
    refused::<Class>(&rt, "(sheet class 1 1\n(row O)\n)\n", 22)?;
    refused::<Class>(&rt, "(sheet class 1 1\n(row oo)\n)\n", 23)
}

#[test]
fn ends(rt: HostRuntime) -> Result<(), Fail> {
    refused::<Height>(&rt, "(sheet height 1 1\n(row 7)\n(row 7)\n)\n", 26)?;
    refused::<Height>(&rt, "(sheet height 1 1\n(row 7)\n)", 27)?;
    refused::<Height>(&rt, "(sheet height 1 1\n(row 7)\n) \n", 27)?;
    refused::<Height>(&rt, "(sheet height 1 1\n(row 7)\n)\n ", 28)?;
    refused::<Height>(&rt, "(sheet height 1 1\n(row 7)\n)\n\n", 28)?;
    refused::<Height>(&rt, "(sheet height 2 2\n(row 1 2)\n(row 3)\n)\n", 34)?;
    refused::<Height>(&rt, "(sheet height 2 2\n(row 1 2)\n)\n", 28)
}
