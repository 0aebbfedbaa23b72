// Ways, sills, and a whole sheet filled at once.
#![tactic(auto)]

mod blocks;
mod fill;
mod ground;
mod levels;
mod scratch;
#[cfg(test)]
mod tests;

pub use blocks::{read_block, write_block};
pub use fill::{fill_sheet, is_short};
pub use ground::CellGround;
pub use levels::flood_cells;
pub use scratch::Scratch;
