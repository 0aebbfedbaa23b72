// The program's input: the text of a sheet and a line of cuts.
#![tactic(auto)]

mod cuts;
mod input;
mod line;
mod reader;

pub use cuts::Cuts;
pub use input::Input;
pub use reader::read_input;
