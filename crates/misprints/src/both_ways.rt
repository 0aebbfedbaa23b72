// Texts that are read and written again, and marks that are written and read again.
use brackets::{Text, sheet_text, text_length, text_marks, write_text};
use marks::{Class, CodedMark, Height, Mark, Refusal};
use sheets::{Raster, Sheet, Sides};
use std::alloc::Global;
use std::test::Fail;

// The text of a sheet, in a buffer that has so many bytes less than it takes.
fn text_of<M: CodedMark, S: Sheet<Mark = M>>(
    heap: Global,
    sheet: &S,
    row: &mut [M],
    less: usize,
) -> Result<Vec<u8>, Refusal> {
    let len = text_length(sheet, row)?;
    let mut text = vec![in heap; b'#'; len.saturating_sub(less)]?;
    write_text(sheet, row, text.as_mut_slice())?;
    Ok(text)
}

// A text, read and written again.
fn rewritten<M: CodedMark>(
    heap: Global,
    text: &[u8],
    row: &mut [M],
    less: usize,
) -> Result<Vec<u8>, Refusal> {
    let sheet = Text::<M>::new(heap, text)?;
    text_of(heap, &sheet, row, less)
}

// Marks in a raster, written.
fn printed<M: CodedMark>(
    heap: Global,
    rows: usize,
    cols: usize,
    marks: &mut [M],
    row: &mut [M],
) -> Result<Vec<u8>, Refusal> {
    let sheet = Raster::new(rows, cols, marks)?;
    text_of(heap, &sheet, row, 0)
}

// The text of marks in a raster, in memory.
fn in_memory<M: CodedMark>(
    heap: Global,
    rows: usize,
    cols: usize,
    marks: &mut [M],
    row: &mut [M],
) -> Result<Vec<u8>, Refusal> {
    let sheet = Raster::new(rows, cols, marks)?;
    sheet_text(heap, &sheet, row)
}

// Reads a run of a text.
fn read_run<M: CodedMark>(
    heap: Global,
    text: &[u8],
    row: usize,
    col: usize,
    run: &mut [M],
) -> Result<(), Refusal> {
    let sheet = Text::<M>::new(heap, text)?;
    sheet.read(row, col, run)
}

// The number of a refusal, if there is one.
fn number_of<T: Drop>(r: Result<T, Refusal>) -> Option<u8> {
    let refusal = r.err()?;
    Some(refusal.number())
}

#[test]
fn texts_come_back(rt: HostRuntime) -> Result<(), Fail> {
    let heights = b"(sheet height 2 3\n(row -32767 0 .)\n(row 5 32767 -1)\n)\n";
    let classes = b"(sheet class 2 3\n(row o s m)\n(row . p k)\n)\n";
    let mut height_row = [Height::void(); 3];
    let mut class_row = [Class::Void; 3];
    assert!(rt;
        rewritten(rt.alloc(), heights, &mut height_row, 0)?.as_slice() == heights.as_slice()
    );
    assert!(rt;
        rewritten(rt.alloc(), classes, &mut class_row, 0)?.as_slice() == classes.as_slice()
    );
    Ok(())
}

#[test]
fn marks_come_back(rt: HostRuntime) -> Result<(), Fail> {
    let heap = rt.alloc();
    let mut classes = [
        Class::Open,
        Class::Wet,
        Class::Void,
        Class::Kept,
        Class::Peat,
        Class::Moist,
    ];
    let mut run = [Class::Open; 3];
    let text = printed(heap, 2, 3, &mut classes, &mut run)?;
    assert!(rt; text.as_slice() == b"(sheet class 2 3\n(row o w .)\n(row k p m)\n)\n".as_slice());
    read_run(heap, text.as_slice(), 0, 0, &mut run)?;
    assert_eq!(rt; run, [Class::Open, Class::Wet, Class::Void]);
    read_run(heap, text.as_slice(), 1, 0, &mut run)?;
    assert_eq!(rt; run, [Class::Kept, Class::Peat, Class::Moist]);
    Ok(())
}

#[test]
fn marks_in_memory(rt: HostRuntime) -> Result<(), Fail> {
    let heap = rt.alloc();
    let text = b"(sheet class 2 2\n(row o .)\n(row k p)\n)\n";
    let mut marks = text_marks::<Class>(heap, text, Sides::new(2, 2)?)?;
    let wanted = [Class::Open, Class::Void, Class::Kept, Class::Peat];
    assert!(rt; marks.as_slice() == wanted.as_slice());
    let mut row = [Class::Void; 2];
    let again = in_memory(heap, 2, 2, marks.as_mut_slice(), &mut row)?;
    assert!(rt; again.as_slice() == text.as_slice());
    let short = in_memory(heap, 2, 2, marks.as_mut_slice(), &mut row[..1]);
    assert_eq!(rt; number_of(short), Some(5));
    Ok(())
}

#[test]
fn marks_of_dead_cells(rt: HostRuntime) -> Result<(), Fail> {
    let heap = rt.alloc();
    let sides = Sides::new(2, 2)?;
    let read = text_marks::<Class>(heap, b"(sheet class 2 2\n(row o s)\n(row k p)\n)\n", sides);
    assert_eq!(rt; number_of(read), None);
    let misspelled = text_marks::<Class>(
        heap,
        b"(sheet class 2 2\n(row o s)\n(row k q)\n)\n",
        sides,
    );
    assert_eq!(rt; number_of(misspelled), Some(7));
    let short = text_marks::<Class>(heap, b"(sheet class 1 2\n(row o s)\n)\n", sides);
    assert_eq!(rt; number_of(short), Some(7));
    let narrow = text_marks::<Class>(heap, b"(sheet class 2 1\n(row o)\n(row k)\n)\n", sides);
    assert_eq!(rt; number_of(narrow), Some(7));
    Ok(())
}

#[test]
fn refusals(rt: HostRuntime) {
    let heap = rt.alloc();
    let text = b"(sheet class 1 4\n(row o s m w)\n)\n";
    let small = b"(sheet class 1 3\n(row o s m)\n)\n";
    let mut run = [Class::Open; 3];
    assert_eq!(rt; number_of(read_run(heap, text, 0, 1, &mut run)), None);
    assert_eq!(rt; number_of(read_run(heap, text, 0, 2, &mut run)), Some(6));
    assert_eq!(rt; number_of(read_run(heap, text, 1, 0, &mut run)), Some(6));
    assert_eq!(rt; number_of(rewritten(heap, text, &mut run, 0)), Some(5));
    assert_eq!(rt; number_of(rewritten(heap, small, &mut run, 0)), None);
    assert_eq!(rt; number_of(rewritten(heap, small, &mut run, 1)), Some(9));
}
