// Reading on from a place in a text.
ghost use Rattle.std.specs.Prelude.{◌≡◌, ◌≤◌, length, drop, min};
ghost use Rattle.grammar.specs.Grammars.{lit};
ghost use Rattle.texts.specs.Tokens.{front};

use crate::tokens::written;
use grammar::{literal, natural};

// A place in a text, or its end.
#[derive(Clone, Copy, PartialEq, Eq, Debug)]
pub struct Cursor<'a> {
    pub(crate) bytes: &'a [u8],
    pub(crate) at: usize,
    ghost inside: { at ≤ length bytes.now },
}

impl<'a> Cursor<'a> {
    ghost use Rattle.texts.specs.Cursors.{ReadsOn, ReadsNumber};

    // At a place in a text, or at its end, if the place lies behind it.
    pub fn new(bytes: &'a [u8], at: usize) -> Cursor<'a>
        ensures bytes { result.bytes.now ≡ bytes.now }
        ensures at { result.at ≡ min at (length bytes.now) }
    {
        Cursor {
            bytes,
            at: at.min(bytes.len()),
        }
    }

    // Where it stands, from the start of the text.
    pub fn place(self) -> usize
        ensures { result ≡ self.entry.at }
    {
        let Cursor { at, .. } = self;
        at
    }

    // The word or number here, and nothing where there is neither.
    pub fn written(self) -> &'a [u8]
        ensures { result.now ≡ front (drop self.entry.at self.entry.bytes.now) }
    {
        written(self.bytes, self.at)
    }

    // Reads just these bytes.
    pub fn word(self, word: &[u8]) -> Result<Cursor<'a>, usize>
        ensures { ReadsOn (lit word.now) self.entry result }
    {
        let end = literal(self.bytes, self.at, word)?;
        Ok(Cursor::new(self.bytes, end))
    }

    // Reads a number from 1 to `max`, which has to be all of the word here, and stops before the byte that ends it.
    pub fn number(self, max: u32) -> Result<(usize, Cursor<'a>), usize>
        ensures { ReadsNumber max self.entry result }
    {
        let word = self.written();
        let (len, n) = natural(word, 0, max);
        let stop = self.at + len;
        if len < word.len() {
            return Err(stop);
        }
        Ok((n.ok_or(stop)?, Cursor::new(self.bytes, stop)))
    }
}
