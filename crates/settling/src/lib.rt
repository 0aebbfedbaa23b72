// The ground of mouths, and its flood, which settles a round.
#![tactic(auto)]

mod ground;
mod sills;

pub use ground::MouthGround;
pub use sills::settle_mouths;
