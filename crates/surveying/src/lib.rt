// The survey of a tile: its mouths' marks, and a tree of passes over its mouths.
#![tactic(auto)]

mod around;
mod blocks;
mod flooded;
mod labels;
mod linking;
mod scratch;
mod survey;

pub use scratch::SurveyScratch;
pub use survey::survey_tile;
