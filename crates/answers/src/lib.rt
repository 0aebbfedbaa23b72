// The program's answer: what it prints for its input.
#![tactic(auto)]

mod answering;
mod filling;
mod printing;

pub use answering::{MOST_BYTES, answer};
