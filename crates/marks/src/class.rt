// Care classes.
ghost use Rattle.std.specs.Prelude.{◌≡◌, ◌++◌, Some, codes, encode_utf8};
ghost use Rattle.marks.specs.Classes.{below, letter_of, Lettered};
ghost use Rattle.marks.specs.declared.class.Class.TheVariants.{Void};
ghost use Rattle.std.proofs.Common.{rules};

use crate::kind::Mark;
use crate::order::Order;
use std::error::Error;
use std::fmt;

pub mod codes;

// How the ground may be treated, from open to kept; void where that is not known. A class is below those that follow it.
#[derive(Clone, Copy, PartialEq, Eq, PartialOrd, Ord, Debug)]
pub enum Class {
    Void,
    Open,
    Strip,
    Moist,
    Wet,
    Peat,
    Kept,
}

// A character that spells no class.
#[derive(Clone, Copy, PartialEq, Eq, Debug)]
pub struct UnknownLetter(pub char);

// The letter that spells a class.
impl From<Class> for char {
    ghost from_gives = { λ class letter. letter ≡ letter_of class };

    fn from(class: Class) -> char {
        match class {
            Class::Void => '.',
            Class::Open => 'o',
            Class::Strip => 's',
            Class::Moist => 'm',
            Class::Wet => 'w',
            Class::Peat => 'p',
            Class::Kept => 'k',
        }
    }
}

// The class that a letter spells.
impl TryFrom<char> for Class {
    type Error = UnknownLetter;

    ghost try_from_gives = { Lettered };

    fn try_from(letter: char) -> Result<Class, UnknownLetter> {
        match letter {
            '.' => Ok(Class::Void),
            'o' => Ok(Class::Open),
            's' => Ok(Class::Strip),
            'm' => Ok(Class::Moist),
            'w' => Ok(Class::Wet),
            'p' => Ok(Class::Peat),
            'k' => Ok(Class::Kept),
            _ => Err(UnknownLetter(letter)),
        }
    }
}

impl fmt::Display for UnknownLetter {
    ghost output = { λ e. Some (codes "no class is spelled " ++ encode_utf8 e.0) };

    fn fmt<W: fmt::Write>(&self, f: &mut fmt::Formatter<W>) -> fmt::Result {
        write!(f, "no class is spelled {}", self.0)
    }
}

impl Error for UnknownLetter {}

impl Order for Class {
    ghost leb = { below };

    ghost total = { Prim.search rules };

    ghost transitive = { Prim.search rules };

    ghost antisymmetric = { Prim.search rules };

    fn at_most(&self, other: &Class) -> bool {
        self <= other
    }
}

impl Mark for Class {
    ghost lowest = { Void };

    ghost least = { Prim.search rules };

    fn void() -> Class {
        Self::Void
    }
}
