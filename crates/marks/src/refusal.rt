// Why a call was refused.
ghost use Rattle.std.specs.Prelude.{◌≡◌, Some};
ghost use Rattle.marks.specs.Refusals.{number, placed, refusal_text};
ghost use Rattle.marks.specs.declared.refusal.Refusal.TheVariants.{NoMemory};

use std::alloc::{AllocError, AllocFailed};
use std::error::Error;
use std::fmt;

#[derive(Clone, Copy, PartialEq, Eq, Debug)]
pub enum Refusal {
    // A side outside 1 to 2,048, or more than the program takes.
    Size,
    // A rule for cuts is broken.
    CutRule,
    NoSuchTile,
    // A table or a slice has the wrong length.
    WrongLength,
    ScratchShort,
    // A run leaves the sheet, or a sheet has other sides than the cut list.
    Outside,
    // A cell that cannot be read.
    DeadCell,
    // A text is not as it must be, and first departs from it at this place.
    Text(usize),
    BufferShort,
    TileSurveyed,
    RoundSettled,
    TilesMissing,
    RoundOpen,
    HeapFull,
    // There is no such place in the heap, or the new element is not at most the old.
    NoLowering,
    NoMemory,
}

impl Refusal {
    // The number that users know it by; no `u8::from`, since a place goes with it.
    pub fn number(self) -> u8
        ensures { result ≡ number self }
    {
        match self {
            Refusal::Size => 1,
            Refusal::CutRule => 2,
            Refusal::NoSuchTile => 3,
            Refusal::WrongLength => 4,
            Refusal::ScratchShort => 5,
            Refusal::Outside => 6,
            Refusal::DeadCell => 7,
            Refusal::Text(_) => 8,
            Refusal::BufferShort => 9,
            Refusal::TileSurveyed => 21,
            Refusal::RoundSettled => 22,
            Refusal::TilesMissing => 23,
            Refusal::RoundOpen => 24,
            Refusal::HeapFull => 25,
            Refusal::NoLowering => 26,
            Refusal::NoMemory => 27,
        }
    }

    // The byte place of a text's refusal, and 0 of any other.
    pub fn place(self) -> usize
        ensures { result ≡ placed self }
    {
        match self {
            Refusal::Text(place) => place,
            _ => 0,
        }
    }
}

// As it is printed: its number and its place, in brackets.
impl fmt::Display for Refusal {
    ghost output = { λ r. Some (refusal_text r) };

    fn fmt<W: fmt::Write>(&self, f: &mut fmt::Formatter<W>) -> fmt::Result {
        write!(f, "(refused {} {})", self.number(), self.place())
    }
}

impl Error for Refusal {}

impl From<AllocError> for Refusal {
    ghost from_gives = { λ _ r. r ≡ NoMemory };

    fn from(_e: AllocError) -> Refusal {
        Refusal::NoMemory
    }
}

impl<T: Drop> From<AllocFailed<T>> for Refusal {
    ghost from_gives = { λ _ r. r ≡ NoMemory };

    fn from(_e: AllocFailed<T>) -> Refusal {
        Refusal::NoMemory
    }
}
