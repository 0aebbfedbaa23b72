// Writing the text of a sheet.
ghost use Rattle.std.specs.Prelude.{◌≡◌, ◌+◌, ◌<◌, ◌≤◌, false, ◌++◌, length, drop};
ghost use Rattle.marks.specs.Refusals.{told};
ghost use Rattle.sheets.specs.Grids.{Side};
ghost use Rattle.texts.specs.Texts.{head_line, text_of};
ghost use Rattle.terrain.specs.Fills.{dead_in};
ghost use Rattle.brackets.specs.Writes.{Put, row_lines, line_of, blanked, writing_told, WritingLeaves, MemoryTold, ScratchKept};

use crate::measuring::{digits, text_length};
use marks::{CodedMark, Refusal};
use sheets::{Sheet, Sides};
use std::alloc::Global;

// Writes some bytes at a place, and answers where they end.
fn put(out: &mut [u8], at: usize, word: &[u8]) -> usize
    requires { at + length word.now ≤ length out.old }
    ensures { Put out.old out.new at word.now result }
{
    let end = at + word.len();
    out[at..end].copy_from_slice(word);
    end
}

// Writes some bytes and what ends them.
fn put_ended(out: &mut [u8], at: usize, word: &[u8], end: &[u8]) -> usize
    requires { at + length word.now + length end.now ≤ length out.old }
    ensures { Put out.old out.new at (word.now ++ end.now) result }
{
    let last = put(out, at, word);
    put(out, last, end)
}

// Writes some marks with a blank before each.
fn put_marks<M: CodedMark>(out: &mut [u8], from: usize, marks: &[M]) -> usize
    requires { from + length (blanked M.Spelled.spelled marks.now) ≤ length out.old }
    ensures { Put out.old out.new from (blanked M.Spelled.spelled marks.now) result }
{
    let mut at = from;
    for mark in marks {
        at = put(out, at, b" ");
        at = put(out, at, mark.spelling().as_bytes());
    }
    at
}

// Writes the line of some marks.
fn put_line<M: CodedMark>(out: &mut [u8], from: usize, marks: &[M]) -> usize
    requires { from + length (line_of M.Spelled.spelled marks.now) ≤ length out.old }
    ensures { Put out.old out.new from (line_of M.Spelled.spelled marks.now) result }
{
    let first = put(out, from, b"(row");
    let last = put_marks(out, first, marks);
    put(out, last, b")\n")
}

// Writes the first line at the start of a buffer.
fn put_head<M: CodedMark>(out: &mut [u8], sides: Sides) -> usize
    requires { length (head_line M.Spelled.named sides.rows sides.cols) ≤ length out.old }
    ensures { Put out.old out.new 0 (head_line M.Spelled.named sides.rows sides.cols) result }
{
    let Sides { rows, cols } = sides;
    let word = put(out, 0, b"(sheet ");
    let first = put_ended(out, word, M::name(), b" ");
    let second = put_ended(out, first, digits(rows).as_bytes(), b" ");
    put_ended(out, second, digits(cols).as_bytes(), b"\n")
}

// Writes the lines of a sheet's rows, with a run to read each row into.
fn put_rows<M: CodedMark, S: Sheet<Mark = M>>(
    sheet: &S,
    run: &mut [M],
    out: &mut [u8],
    from: usize,
) -> usize
    requires cols { length run.old ≡ (S.Sheet.meaning sheet.now).cols }
    requires live { dead_in (S.Sheet.meaning sheet.now) ≡ false }
    requires room { from + length (row_lines M.Spelled.spelled (S.Sheet.meaning sheet.now) (S.Sheet.meaning sheet.now).rows) ≤ length out.old }
    ensures { Put out.old out.new from (row_lines M.Spelled.spelled (S.Sheet.meaning sheet.now) (S.Sheet.meaning sheet.now).rows) result }
{
    let rows = sheet.sides().rows;
    let mut at = from;
    for i in 0..rows {
        match sheet.read(i, 0, run) {
            Ok(()) => at = put_line(out, at, run),
            Err(_) => unreachable(),
        }
    }
    at
}

// Writes the text of a sheet without dead cells at the start of a buffer that has room for it, and answers its length.
fn put_text<M: CodedMark, S: Sheet<Mark = M>>(sheet: &S, run: &mut [M], out: &mut [u8]) -> usize
    requires row { (S.Sheet.meaning sheet.now).cols ≤ length run.old }
    requires live { dead_in (S.Sheet.meaning sheet.now) ≡ false }
    requires room { length (text_of M.Spelled.named M.Spelled.spelled (S.Sheet.meaning sheet.now)) ≤ length out.old }
    ensures value { result ≡ length (text_of M.Spelled.named M.Spelled.spelled (S.Sheet.meaning sheet.now)) }
    ensures leaves { out.new ≡ text_of M.Spelled.named M.Spelled.spelled (S.Sheet.meaning sheet.now) ++ drop (length (text_of M.Spelled.named M.Spelled.spelled (S.Sheet.meaning sheet.now))) out.old }
{
    let sides = sheet.sides();
    let first = put_head::<M>(out, sides);
    let last = put_rows(sheet, &mut run[..sides.cols], out, first);
    put(out, last, b")\n")
}

// Writes the text of a sheet into a buffer, and answers its length. It takes scratch for one row.
pub fn write_text<M: CodedMark, S: Sheet<Mark = M>>(
    sheet: &S,
    scratch: &mut [M],
    out: &mut [u8],
) -> Result<usize, Refusal>
    ensures told { told result ≡ writing_told M.Spelled.named M.Spelled.spelled (S.Sheet.meaning sheet.now) (length scratch.old) (length out.old) }
    ensures leaves { WritingLeaves M.Spelled.named M.Spelled.spelled (S.Sheet.meaning sheet.now) out.old out.new result }
    ensures scratch { ScratchKept scratch.old scratch.new result }
{
    let len = text_length(sheet, scratch)?;
    if out.len() < len {
        return Err(Refusal::BufferShort);
    }
    Ok(put_text(sheet, scratch, out))
}

// The text of a sheet, in memory; its length is measured once. It takes scratch for one row.
pub fn sheet_text<M: CodedMark, S: Sheet<Mark = M>>(
    heap: Global,
    sheet: &S,
    scratch: &mut [M],
) -> Result<Vec<u8>, Refusal>
    ensures told { MemoryTold M.Spelled.named M.Spelled.spelled (S.Sheet.meaning sheet.now) (length scratch.old) result }
    ensures scratch { ScratchKept scratch.old scratch.new result }
{
    let len = text_length(sheet, scratch)?;
    let mut text = vec![in heap; b' '; len]?;
    put_text(sheet, scratch, text.as_mut_slice());
    Ok(text)
}
