// The cells of a line of a text.
ghost use Rattle.std.specs.Prelude.{◌≡◌, ℕ, ◌<◌, true, false, length, MatchBool, MatchResult};
ghost use Rattle.marks.specs.declared.refusal.Refusal.TheVariants.{DeadCell};
ghost use Rattle.sheets.specs.Grids.{is_dead, at};
ghost use Rattle.brackets.specs.Lines.{past_part};
ghost use Rattle.brackets.specs.Cells.{mark_of, cell_along};
ghost use Rattle.texts.specs.Tokens.{front};

use crate::parts::behind;
use marks::{CodedMark, Refusal};
use texts::written;

// The mark that is spelled first in a line of cells, none if the cell there is dead; and what follows it. Its word is sought once.
fn split_mark<'a, M: CodedMark>(line: &'a [u8]) -> (Option<M>, &'a [u8])
    ensures mark { result.0 ≡ mark_of M.CodedMark.decoded M.Spelled.spelled (front line.now) }
    ensures rest { result.1.now ≡ past_part line.now }
{
    let word = written(line, 0);
    (M::from_spelling(word), behind(line, word.len()))
}

// Whether none of the first cells of a line, so many, is dead.
pub(crate) fn readable<M: CodedMark>(line: &[u8], len: usize) -> bool
    ensures { MatchBool result ((k : ℕ) → k < len → is_dead (cell_along M.CodedMark.decoded M.Spelled.spelled line.now k) ≡ false) ((k : ℕ) × (k < len) × (is_dead (cell_along M.CodedMark.decoded M.Spelled.spelled line.now k) ≡ true)) }
{
    let mut rest = line;
    for k in 0..len {
        let (mark, next) = split_mark::<M>(rest);
        if mark.is_none() {
            return false;
        }
        rest = next;
    }
    true
}

// Puts the marks of the first cells of a line into a slice; refused by 7 at the first that is dead.
pub(crate) fn fill<M: CodedMark>(line: &[u8], out: &mut [M]) -> Result<(), Refusal>
    ensures { MatchResult result (λ _. (k : ℕ) → k < length out.old → cell_along M.CodedMark.decoded M.Spelled.spelled line.now k ≡ at out.new k) (λ e. (e ≡ DeadCell) × ((k : ℕ) × (k < length out.old) × (is_dead (cell_along M.CodedMark.decoded M.Spelled.spelled line.now k) ≡ true))) }
{
    let mut rest = line;
    for slot in out.iter_mut() {
        let (mark, next) = split_mark::<M>(rest);
        let Some(mark) = mark else {
            return Err(Refusal::DeadCell);
        };
        *slot = mark;
        rest = next;
    }
    Ok(())
}
