// How a sheet is cut into tiles, and the numbers of the tiles and of their mouths.
#![tactic(auto)]

mod block;
mod cuts;
mod dividing;
mod division;
mod numbers;
mod perimeter;
mod places;
#[cfg(test)]
mod tests;

pub use block::Block;
pub use cuts::CutList;
pub use places::{Mouth, Spot};
