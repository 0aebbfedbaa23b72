// The two tables of a round: what is kept of each mouth, and of each pass between two mouths of a tile.
#![tactic(auto)]

mod checks;
mod records;

pub use checks::tables_short;
pub use records::{MouthRecord, PassRecord};
