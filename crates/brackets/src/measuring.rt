// How long the text of a sheet is.
ghost use Rattle.std.specs.Prelude.{◌≡◌, ◌+◌, ◌*◌, ◌<◌, ◌≤◌, [], ◌∷◌, length, IfOk, decimal};
ghost use Rattle.marks.specs.Refusals.{told, checked};
ghost use Rattle.marks.specs.Spellings.{spelt};
ghost use Rattle.sheets.specs.Grids.{Side};
ghost use Rattle.texts.specs.Texts.{head_line};
ghost use Rattle.terrain.specs.Fills.{dead_in};
ghost use Rattle.brackets.specs.Writes.{row_lines, line_of, length_told, ScratchKept};

use marks::{CodedMark, Height, Refusal, Spelled, Spelling};
use sheets::{Sheet, Sides};

// A side in decimal: a height of so many decimetres is spelled just so.
pub(crate) fn digits(side: usize) -> Spelling
    requires { Side side }
    ensures { spelt result ≡ decimal side }
{
    Height::new(side as i16).unwrap().spelling()
}

// The length of the line of some marks.
fn line_length<M: CodedMark>(marks: &[M]) -> usize
    requires { Side (length marks.now) }
    ensures value { result ≡ length (line_of M.Spelled.spelled marks.now) }
    ensures small { result ≤ 14342 }
{
    let mut len = 6;
    for mark in marks {
        len += 1 + mark.spelling().as_bytes().len();
    }
    len
}

// The length of the lines of a sheet's rows, with a run to read each row into.
fn rows_length<M: CodedMark, S: Sheet<Mark = M>>(sheet: &S, run: &mut [M]) -> Result<usize, Refusal>
    requires { length run.old ≡ (S.Sheet.meaning sheet.now).cols }
    ensures told { told result ≡ checked ((dead_in (S.Sheet.meaning sheet.now), 7) ∷ []) (length (row_lines M.Spelled.spelled (S.Sheet.meaning sheet.now) (S.Sheet.meaning sheet.now).rows)) }
    ensures small { IfOk result (λ n. n ≤ 14342 * 2048) }
{
    let rows = sheet.sides().rows;
    let mut len = 0;
    for i in 0..rows {
        sheet.read(i, 0, run)?;
        len += line_length(run);
    }
    Ok(len)
}

// The length of the first line.
fn head_length<M: CodedMark>(sides: Sides) -> usize
    ensures value { result ≡ length (head_line M.Spelled.named sides.rows sides.cols) }
    ensures small { result ≤ 30 }
{
    let Sides { rows, cols } = sides;
    10 + M::name().len() + digits(rows).as_bytes().len() + digits(cols).as_bytes().len()
}

// The length of a sheet's text. It takes scratch for one row.
pub fn text_length<M: CodedMark, S: Sheet<Mark = M>>(
    sheet: &S,
    scratch: &mut [M],
) -> Result<usize, Refusal>
    ensures told { told result ≡ length_told M.Spelled.named M.Spelled.spelled (S.Sheet.meaning sheet.now) (length scratch.old) }
    ensures scratch { ScratchKept scratch.old scratch.new result }
{
    let sides = sheet.sides();
    if scratch.len() < sides.cols {
        return Err(Refusal::ScratchShort);
    }
    let lines = rows_length(sheet, &mut scratch[..sides.cols])?;
    Ok(head_length::<M>(sides) + lines + 2)
}
