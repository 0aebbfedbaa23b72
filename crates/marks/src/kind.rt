// Kinds of mark.
ghost use Rattle.std.specs.Prelude.{◌≡◌, ℕ, ◌^◌, ◌<◌, ◌≤◌, Bool, true, List, ◌∷◌, ◌++◌, length, Some, Option, MatchOption, ◌≢◌};
ghost use Rattle.grammar.specs.Grammars.{LongestShared, all_by};
ghost use Rattle.marks.specs.Spellings.{Separator, spelt};

use crate::order::Order;
use crate::spelling::Spelling;

// A kind of mark: an order with a lowest mark, the void, which stands for "nothing measured here".
pub trait Mark: Order {
    ghost lowest: { Self };

    fn void() -> Self
        ensures { result ≡ lowest };

    ghost least: { (x : Self) → Self.Order.leb lowest x ≡ true };
}

// What is written in a text: by a word for the kind and a spelling for each mark.
pub trait Spelled {
    const WORD: &'static [u8];

    // The bytes of the word.
    ghost named: { List ℕ };

    // The bytes by which a mark is spelled.
    ghost spelled: { Self → List ℕ };

    fn name() -> &'static [u8]
        ensures { result.now ≡ named };

    fn spelling(self) -> Spelling
        ensures { spelt result ≡ spelled self };
}

// A kind whose marks have codes and spellings.
pub trait CodedMark: Mark + Spelled {
    // The code of a mark, of 16 bits.
    ghost coded: { Self → ℕ };

    // The mark of a code, if it has one.
    ghost decoded: { ℕ → Option Self };

    // Beside `from_code` and no `From` and `TryFrom`: generic code knows both by the laws below.
    fn code(self) -> u16
        ensures { result ≡ coded self };

    fn from_code(code: u16) -> Option<Self>
        ensures { result ≡ decoded code };

    fn from_spelling(bytes: &[u8]) -> Option<Self>
        ensures { MatchOption result ((x : Self) → Self.Spelled.spelled x ≢ bytes.now) (λ x. Self.Spelled.spelled x ≡ bytes.now) };

    // The length of the longest beginning that the bytes share with any spelling.
    fn shared_beginning(bytes: &[u8]) -> usize
        ensures { LongestShared (all_by Self.Spelled.spelled) bytes.now result };

    ghost narrow: { (x : Self) → coded x < 2 ^ 16 };

    ghost apart: { (x y : Self) → coded x ≡ coded y → x ≡ y };

    ghost encodes: { (x : Self) → decoded (coded x) ≡ Some x };

    ghost decodes: { (c : ℕ) (x : Self) → decoded c ≡ Some x → coded x ≡ c };

    ghost distinct: { (x y : Self) → Self.Spelled.spelled x ≡ Self.Spelled.spelled y → x ≡ y };

    ghost short: { (x : Self) → (1 ≤ length (Self.Spelled.spelled x)) × (length (Self.Spelled.spelled x) ≤ 6) };

    // No spelling has a blank, a bracket or a line end in it.
    ghost clear: { (x : Self) (u w : List ℕ) (t : ℕ) → Separator t → Self.Spelled.spelled x ≢ u ++ (t ∷ w) };

    ghost brief: { (1 ≤ length Self.Spelled.named) × (length Self.Spelled.named ≤ 8) };

    ghost whole: { (u w : List ℕ) (t : ℕ) → Separator t → Self.Spelled.named ≢ u ++ (t ∷ w) };
}
