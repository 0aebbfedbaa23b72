// The codes and the spellings of heights.
ghost use Rattle.std.specs.Prelude.{◌≡◌, ℕ, ◌^◌, ◌<◌, ◌≤◌, List, ◌∷◌, codes, decimal, refl};
ghost use Rattle.grammar.specs.Grammars.{Scanned, all_by};
ghost use Rattle.marks.specs.Heights.{bits16, height_of};
ghost use Rattle.marks.specs.Spellings.{spelled_z, spelt};
ghost use Rattle.marks.specs.HeightsLemmas.{same_height, bits_apart, bits_small, height_encodes, height_decodes};
ghost use Rattle.marks.specs.Spells.{spelled_apart, spelled_some, spelled_clear, word_clear};
ghost use Rattle.std.proofs.Common.{rules};

use crate::height::Height;
use crate::kind::{CodedMark, Mark, Spelled};
use crate::spelling::Spelling;
use grammar::natural;

impl Spelled for Height {
    const WORD: &'static [u8] = b"height";

    ghost named = { codes "height" };

    ghost spelled = { λ x. spelled_z x.dm };

    fn name() -> &'static [u8] {
        Self::WORD
    }

    fn spelling(self) -> Spelling {
        if self.dm == i16::MIN {
            return Spelling {
                bytes: *b"     .",
                start: 5,
            };
        }
        if self.dm >= 0 {
            return digits(self.dm as u16);
        }
        minus(digits((-self.dm) as u16))
    }
}

impl CodedMark for Height {
    ghost coded = { λ x. bits16 x.dm };

    ghost decoded = { height_of };

    ghost narrow = { λ x. bits_small x.dm x.fits };

    ghost apart = { λ x y e. same_height x y (bits_apart _ _ x.fits y.fits e) };

    ghost encodes = { λ x. height_encodes x (bits_small x.dm x.fits) };

    ghost decodes = { λ c x e. height_decodes c x e };

    ghost distinct = { λ x y e. same_height x y (spelled_apart _ _ x.fits y.fits e) };

    ghost short = { λ x. spelled_some x.dm x.fits };

    ghost clear = { λ x u w t s e. spelled_clear x.dm x.fits u w t s e };

    ghost brief = { Prim.search rules };

    ghost whole = { λ u w t s e. word_clear _ refl u w t s e };

    fn code(self) -> u16 {
        self.dm.cast_unsigned()
    }

    fn from_code(code: u16) -> Option<Height> {
        Some(Height {
            dm: code.cast_signed(),
        })
    }

    fn from_spelling(bytes: &[u8]) -> Option<Height> {
        let (end, mark) = scan_height(bytes);
        if end == bytes.len() { mark } else { None }
    }

    fn shared_beginning(bytes: &[u8]) -> usize {
        scan_height(bytes).0
    }
}

// The decimal digits of a number, at most five. A loop of our own: what another crate promises of its digits would have to be trusted.
fn digits(n: u16) -> Spelling
    ensures value { spelt result ≡ decimal n }
    ensures room { 1 ≤ result.start }
{
    let mut bytes = [b' '; 6];
    let mut start = 5;
    let mut rest = n;
    while rest >= 10 {
        bytes[start] = b'0' + (rest % 10) as u8;
        start -= 1;
        rest /= 10;
    }
    bytes[start] = b'0' + rest as u8;
    Spelling { bytes, start }
}

// A minus before the digits.
fn minus(digits: Spelling) -> Spelling
    requires { 1 ≤ digits.start }
    ensures { spelt result ≡ 45 ∷ spelt digits }
{
    let mut bytes = digits.bytes;
    let start = digits.start - 1;
    bytes[start] = b'-';
    Spelling { bytes, start }
}

// The longest beginning that the bytes share with the spelling of a height, and the height that it spells.
fn scan_height(bytes: &[u8]) -> (usize, Option<Height>)
    ensures { Scanned (all_by (λ (x : Height). spelled_z x.dm)) bytes.now result.0 result.1 }
{
    if bytes.is_empty() {
        return (0, None);
    }
    let first = bytes[0];
    if first == b'.' {
        return (1, Some(Height::void()));
    }
    if first == b'0' {
        return (1, Some(Height { dm: 0 }));
    }
    if first == b'-' {
        let (end, n) = natural(bytes, 1, 32767);
        return (end, n.map(|n| Height { dm: -(n as i16) }));
    }
    let (end, n) = natural(bytes, 0, 32767);
    (end, n.map(|n| Height { dm: n as i16 }))
}
