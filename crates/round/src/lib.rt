// A round: one tiled run over a cut sheet, by surveys of its tiles and one settling.
#![tactic(auto)]

mod calls;
mod rounds;
mod settle;
mod survey;

pub use calls::Call;
pub use rounds::{Round, State};
