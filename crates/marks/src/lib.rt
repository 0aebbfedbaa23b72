// Kinds of mark: their order, their codes and spellings. And the refusals of every layer above.
#![tactic(auto)]

mod class;
mod height;
mod kind;
mod order;
mod refusal;
mod spelling;
#[cfg(test)]
mod tests;

pub use class::{Class, UnknownLetter};
pub use height::Height;
pub use kind::{CodedMark, Mark, Spelled};
pub use order::{Order, higher};
pub use refusal::Refusal;
pub use spelling::Spelling;
