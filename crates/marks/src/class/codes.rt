// The codes and the spellings of classes.
ghost use Rattle.std.specs.Prelude.{[], ◌∷◌, codes, refl};
ghost use Rattle.marks.specs.Classes.{rank, ranked, letter_of};
ghost use Rattle.marks.specs.Spells.{class_clear, word_clear};
ghost use Rattle.std.proofs.Common.{rules};

use crate::class::Class;
use crate::kind::{CodedMark, Spelled};
use crate::spelling::Spelling;

impl Spelled for Class {
    const WORD: &'static [u8] = b"class";

    ghost named = { codes "class" };

    ghost spelled = { λ x. letter_of x ∷ [] };

    fn name() -> &'static [u8] {
        Self::WORD
    }

    fn spelling(self) -> Spelling {
        let mut bytes = [b' '; 6];
        bytes[5] = char::from(self) as u8;
        Spelling { bytes, start: 5 }
    }
}

impl CodedMark for Class {
    ghost coded = { rank };

    ghost decoded = { ranked };

    ghost narrow = { Prim.search rules };

    ghost apart = { Prim.search rules };

    ghost encodes = { Prim.search rules };

    ghost decodes = { Prim.search rules };

    ghost distinct = { Prim.search rules };

    ghost short = { Prim.search rules };

    ghost clear = { λ x u w t s e. class_clear x u w t s e };

    ghost brief = { Prim.search rules };

    ghost whole = { λ u w t s e. word_clear _ refl u w t s e };

    fn code(self) -> u16 {
        self as u16
    }

    fn from_code(code: u16) -> Option<Class> {
        match code {
            0 => Some(Class::Void),
            1 => Some(Class::Open),
            2 => Some(Class::Strip),
            3 => Some(Class::Moist),
            4 => Some(Class::Wet),
            5 => Some(Class::Peat),
            6 => Some(Class::Kept),
            _ => None,
        }
    }

    fn from_spelling(bytes: &[u8]) -> Option<Class> {
        match bytes {
            [letter] => Class::try_from(char::from(*letter)).ok(),
            _ => None,
        }
    }

    fn shared_beginning(bytes: &[u8]) -> usize {
        match bytes {
            [letter, ..] if Class::try_from(char::from(*letter)).is_ok() => 1,
            _ => 0,
        }
    }
}
