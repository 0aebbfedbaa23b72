// Sheets of marks: what can be read and written, run by run, whatever it is made of.
#![tactic(auto)]

mod copies;
mod packed;
mod raster;
mod sheet;
mod sides;
#[cfg(test)]
mod tests;
mod works;

pub use copies::{Extent, Place, copy_rectangle, leaves};
pub use packed::Packed;
pub use raster::Raster;
pub use sheet::{Sheet, WritableSheet};
pub use sides::Sides;
pub use works::{Work, on_packed, on_raster};
