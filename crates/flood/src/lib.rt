// The heap over a lent slice, grounds, and the flood that gives each node of a ground the level at which it drains.
#![tactic(auto)]

mod engine;
mod entry;
mod ground;
mod heap;
mod notes;
mod queue;
mod sift;

pub use engine::flood;
pub use entry::Entry;
pub use ground::Ground;
pub use heap::Heap;
