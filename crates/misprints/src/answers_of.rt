// What the program answers, on sheets that are small enough to fill by hand, and on damaged inputs of either kind. The places were
// counted by hand: a sheet of one open cell has 27 bytes, its line of no cuts 23.
use answers::answer;
use marks::Refusal;
use std::alloc::Global;
use std::process::Abort;
use std::test::Fail;

// What the program prints for an input.
fn printed(rt: &impl Abort, heap: Global, input: &str, output: &str) -> Result<(), Fail> {
    let text = answer(heap, input.as_bytes())?;
    assert!(rt; text.as_slice() == output.as_bytes());
    Ok(())
}

// The number and the place of a refusal.
fn refused(
    rt: &impl Abort,
    heap: Global,
    input: &str,
    number: u8,
    place: usize,
) -> Result<(), Fail> {
    refused_bytes(rt, heap, input.as_bytes(), number, place)
}

// The same of bytes.
fn refused_bytes(
    rt: &impl Abort,
    heap: Global,
    input: &[u8],
    number: u8,
    place: usize,
) -> Result<(), Fail> {
    match answer(heap, input) {
        Ok(_) => Err(Fail::new("accepted")),
        Err(refusal) => {
            assert_eq!(rt; refusal.number(), number);
            assert_eq!(rt; refusal.place(), place);
            Ok(())
        }
    }
}

#[test]
fn fills(rt: HostRuntime) -> Result<(), Fail> {
    let heap = rt.alloc();
    printed(
        &rt,
        heap,
        "(sheet class 3 3\n(row w w w)\n(row s o w)\n(row w w w)\n)\n(cuts (down) (across))\n",
        "(sheet class 3 3\n(row w w w)\n(row s s w)\n(row w w w)\n)\n(raised 1)\n",
    )?;
    printed(
        &rt,
        heap,
        "(sheet height 5 5\n(row 9 9 9 9 9)\n(row 9 2 2 2 9)\n(row 9 2 . 2 9)\n(row 9 2 2 2 9)\n(row 9 9 9 9 9)\n)\n(cuts (down 1 3) (across 2))\n",
        "(sheet height 5 5\n(row 9 9 9 9 9)\n(row 9 9 9 9 9)\n(row 9 9 . 9 9)\n(row 9 9 9 9 9)\n(row 9 9 9 9 9)\n)\n(raised 8)\n",
    )
}

// The place is that of the first byte at which no input could go on.
#[test]
fn refuses_text(rt: HostRuntime) -> Result<(), Fail> {
    let heap = rt.alloc();
    refused(&rt, heap, "", 8, 0)?;
    refused(&rt, heap, "(sheet height 1 1\n(row 32768)\n", 8, 27)?;
    refused(&rt, heap, "(sheet height 1 1\n(row -0)\n", 8, 24)?;
    refused(&rt, heap, "(sheet classy 1 1\n", 8, 12)?;
    refused(&rt, heap, "(sheet heights", 8, 13)?;
    refused(&rt, heap, "(sheet class 1 1\n(row x)\n", 8, 22)?;
    refused(
        &rt,
        heap,
        "(sheet class 1 1\n(row o)\n)\n(cuts (down) (across))\n ",
        8,
        50,
    )
}

// The place of a damaged line of cuts behind the text of one open cell.
fn line_refused(rt: &impl Abort, heap: Global, line: &str, place: usize) -> Result<(), Fail> {
    let mut input = Vec::new(heap);
    input.extend_from_slice(b"(sheet class 1 1\n(row o)\n)\n")?;
    input.extend_from_slice(line.as_bytes())?;
    refused_bytes(rt, heap, input.as_slice(), 8, place)
}

#[test]
fn refuses_line(rt: HostRuntime) -> Result<(), Fail> {
    let heap = rt.alloc();
    line_refused(&rt, heap, "", 27)?;
    line_refused(&rt, heap, "(cuts (across) (down))\n", 34)?;
    line_refused(&rt, heap, "(cuts (down1) (across))\n", 38)?;
    line_refused(&rt, heap, "(cuts (down 0) (across))\n", 39)?;
    line_refused(&rt, heap, "(cuts (down 01) (across))\n", 39)?;
    line_refused(&rt, heap, "(cuts (down  1) (across))\n", 39)?;
    line_refused(&rt, heap, "(cuts (down)(across))\n", 39)?;
    line_refused(&rt, heap, "(cuts (down 1 ) (across))\n", 41)?;
    line_refused(&rt, heap, "(cuts (down 2048) (across))\n", 42)
}

// A 32nd cut is one too many, and a line without its end is no line.
#[test]
fn refuses_line_ends(rt: HostRuntime) -> Result<(), Fail> {
    let heap = rt.alloc();
    line_refused(&rt, heap, "(cuts (down) (across)\n", 48)?;
    line_refused(&rt, heap, "(cuts (down) (across))", 49)?;
    line_refused(
        &rt,
        heap,
        "(cuts (down 1 1 1 1 1 1 1 1 1 1 1 1 1 1 1 1 1 1 1 1 1 1 1 1 1 1 1 1 1 1 1 1) (across))\n",
        100,
    )?;
    refused(&rt, heap, "(sheet c", 8, 8)?;
    refused(&rt, heap, "(sheet height 1 1\n(row o)\n", 8, 23)
}

// A size, and then a rule for cuts, is asked only of an input that is read.
#[test]
fn refuses_cuts(rt: HostRuntime) -> Result<(), Fail> {
    let heap = rt.alloc();
    refused(
        &rt,
        heap,
        "(sheet class 1 2\n(row o s)\n)\n(cuts (down) (across 2))\n",
        2,
        0,
    )?;
    refused(
        &rt,
        heap,
        "(sheet class 1 2\n(row o s)\n)\n(cuts (down 1) (across))\n",
        2,
        0,
    )?;
    printed(
        &rt,
        heap,
        "(sheet class 1 2\n(row o s)\n)\n(cuts (down) (across 1))\n",
        "(sheet class 1 2\n(row o s)\n)\n(raised 0)\n",
    )
}

// Sheets small enough to check by hand.
#[test]
fn small_sheets(rt: HostRuntime) -> Result<(), Fail> {
    let heap = rt.alloc();
    printed(
        &rt,
        heap,
        "(sheet height 1 1\n(row 7)\n)\n(cuts (down) (across))\n",
        "(sheet height 1 1\n(row 7)\n)\n(raised 0)\n",
    )?;
    printed(
        &rt,
        heap,
        "(sheet height 1 1\n(row .)\n)\n(cuts (down) (across))\n",
        "(sheet height 1 1\n(row .)\n)\n(raised 0)\n",
    )?;
    printed(
        &rt,
        heap,
        "(sheet height 1 4\n(row 3 -1 . 2)\n)\n(cuts (down) (across))\n",
        "(sheet height 1 4\n(row 3 -1 . 2)\n)\n(raised 0)\n",
    )?;
    printed(
        &rt,
        heap,
        "(sheet height 3 3\n(row 5 5 5)\n(row 5 1 5)\n(row 5 5 5)\n)\n(cuts (down) (across))\n",
        "(sheet height 3 3\n(row 5 5 5)\n(row 5 5 5)\n(row 5 5 5)\n)\n(raised 1)\n",
    )?;
    printed(
        &rt,
        heap,
        "(sheet height 3 3\n(row 2 5 5)\n(row 5 1 5)\n(row 5 5 5)\n)\n(cuts (down) (across))\n",
        "(sheet height 3 3\n(row 2 5 5)\n(row 5 2 5)\n(row 5 5 5)\n)\n(raised 1)\n",
    )
}

// An uncut sheet of open ground: its heading, and so many rows and columns.
fn open_ground(heap: Global, heading: &str, rows: usize, cols: usize) -> Result<Vec<u8>, Fail> {
    let mut text = Vec::new(heap);
    text.extend_from_slice(heading.as_bytes())?;
    for _ in 0..rows {
        text.extend_from_slice(b"(row")?;
        for _ in 0..cols {
            text.extend_from_slice(b" o")?;
        }
        text.extend_from_slice(b")\n")?;
    }
    text.extend_from_slice(b")\n(cuts (down) (across))\n")?;
    Ok(text)
}

// 60,000 bytes are read, and one more is too many; 4,096 cells may be, and so only their one band is refused, but more are too many.
#[test]
fn refuses_size(rt: HostRuntime) -> Result<(), Fail> {
    let heap = rt.alloc();
    refused_bytes(&rt, heap, vec![in heap; b' '; 60_000]?.as_slice(), 8, 0)?;
    refused_bytes(&rt, heap, vec![in heap; b' '; 60_001]?.as_slice(), 1, 0)?;
    let most = open_ground(heap, "(sheet class 2 2048\n", 2, 2048)?;
    refused_bytes(&rt, heap, most.as_slice(), 2, 0)?;
    let more = open_ground(heap, "(sheet class 3 1366\n", 3, 1366)?;
    refused_bytes(&rt, heap, more.as_slice(), 1, 0)
}
