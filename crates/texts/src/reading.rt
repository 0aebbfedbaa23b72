// Reading the text of a sheet, part by part.
ghost use Rattle.std.specs.Prelude.{◌≤◌, MatchResult};
ghost use Rattle.grammar.specs.Grammars.{all_by, ended};
ghost use Rattle.marks.specs.Spellings.{Separator};
ghost use Rattle.texts.specs.Texts.{ReadsSheet};

use crate::cursor::Cursor;
use crate::heading::Heading;
use marks::CodedMark;
use sheets::Sides;

impl<'a> Cursor<'a> {
    ghost use Rattle.texts.specs.Cursors.{Behind, LostAt, ReadsOn};
    ghost use Rattle.texts.specs.Parts.{row as row_grammar, body as body_grammar, head as head_grammar, sides};

    // Reads the spelling of a mark and the byte that ends it.
    fn mark<M: CodedMark>(self, end: u8) -> Result<Cursor<'a>, usize>
        requires { Separator end }
        ensures { ReadsOn (ended (all_by M.Spelled.spelled) end) self.entry result }
    {
        let word = self.written();
        // Only a word that spells no mark is looked through for the place.
        let Some(_) = M::from_spelling(word) else {
            return Err(self.at + M::shared_beginning(word));
        };
        Cursor::new(self.bytes, self.at + word.len()).word(&[end])
    }

    // Reads a side and the byte that ends it.
    fn side(self, end: u8) -> Result<(usize, Cursor<'a>), usize>
        requires { Separator end }
        ensures { MatchResult result (λ s. Behind (sides end) self.entry s.0 s.1) (λ p. LostAt (sides end) self.entry p) }
    {
        let (side, stop) = self.number(2048)?;
        Ok((side, stop.word(&[end])?))
    }

    // Reads the line of a row of `cols` marks.
    fn row<M: CodedMark>(self, cols: usize) -> Result<Cursor<'a>, usize>
        requires { 1 ≤ cols }
        ensures { ReadsOn (row_grammar M.Spelled.spelled cols) self.entry result }
    {
        let mut at = self.word(b"(row ")?;
        for k in 1..cols {
            at = at.mark::<M>(b' ')?;
        }
        at.mark::<M>(b')')?.word(b"\n")
    }

    // Reads the lines of as many rows of marks as a sheet has, and the last line.
    fn body<M: CodedMark>(self, sides: Sides) -> Result<Cursor<'a>, usize>
        ensures { ReadsOn (body_grammar M.Spelled.spelled sides.rows sides.cols) self.entry result }
    {
        let mut at = self;
        for k in 0..sides.rows {
            at = at.row::<M>(sides.cols)?;
        }
        at.word(b")\n")
    }

    // Reads the first line: the sides, and where the rows begin.
    fn first_line<M: CodedMark>(self) -> Result<(Sides, Cursor<'a>), usize>
        ensures { MatchResult result (λ h. Behind (head_grammar M.Spelled.named) self.entry (tt, (tt, (tt, (h.0.rows, h.0.cols)))) h.1) (λ p. LostAt (head_grammar M.Spelled.named) self.entry p) }
    {
        let first = self.word(b"(sheet ")?.word(M::name())?.word(b" ")?;
        let (rows, second) = first.side(b' ')?;
        let (cols, lines) = second.side(b'\n')?;
        Ok((Sides { rows, cols }, lines))
    }
}

// Reads the text of a sheet with which the bytes begin; more may follow it.
pub fn read_sheet<M: CodedMark>(bytes: &[u8]) -> Result<Heading, usize>
    ensures { ReadsSheet M.Spelled.named M.Spelled.spelled bytes.now result }
{
    let (sides, lines) = Cursor::new(bytes, 0).first_line::<M>()?;
    let end = lines.body::<M>(sides)?.place();
    Ok(Heading { sides, end })
}
