// Reading the line of cuts, part by part.
ghost use Rattle.inputs.specs.Cuts.{ReadsCuts};
ghost use Rattle.inputs.specs.Steps.{ReadsMark, ReadsCut, ReadsSide};

use crate::cuts::Cuts;
use texts::Cursor;

// Reads the blank before a cut, where so many may follow, or the bracket behind the last: whether a cut follows.
// Its answer is a truth value: that a cut follows and that none does are two answers to one question, and no value is absent.
fn mark<'a>(from: Cursor<'a>, left: usize) -> Result<(bool, Cursor<'a>), usize>
    ensures { ReadsMark left from.entry result }
{
    match from.word(b" ") {
        Ok(next) if left > 0 => Ok((true, next)),
        _ => Ok((false, from.word(b")")?)),
    }
}

// Reads a cut and the byte that ends it, where so many more may follow: the cut, and whether another follows.
fn cut<'a>(from: Cursor<'a>, left: usize) -> Result<(usize, bool, Cursor<'a>), usize>
    ensures { ReadsCut left from.entry result }
{
    let (cut, stop) = from.number(2047)?;
    let (more, next) = mark(stop, left)?;
    Ok((cut, more, next))
}

// Reads the cuts of one side, and the bracket that ends them.
fn side_cuts<'a>(from: Cursor<'a>) -> Result<(Cuts, Cursor<'a>), usize>
    ensures { ReadsSide from.entry result }
{
    let mut places = [0; 31];
    let mut count = 0;
    let (mut more, mut at) = mark(from, 31)?;
    while more {
        (places[count], more, at) = cut(at, 30 - count)?;
        count += 1;
    }
    Ok((Cuts { places, count }, at))
}

// Reads the line of cuts: the row cuts and the column cuts.
pub(crate) fn cut_line<'a>(from: Cursor<'a>) -> Result<(Cuts, Cuts, Cursor<'a>), usize>
    ensures { ReadsCuts from.entry result }
{
    let (down, middle) = side_cuts(from.word(b"(cuts (down")?)?;
    let (across, last) = side_cuts(middle.word(b" (across")?)?;
    Ok((down, across, last.word(b")\n")?))
}
