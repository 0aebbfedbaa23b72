// The text of a sheet as a sheet, and writing it.
#![tactic(auto)]

mod cells;
mod decoding;
mod making;
mod measuring;
mod parts;
mod text;
mod writing;

pub use decoding::text_marks;
pub use measuring::text_length;
pub use text::Text;
pub use writing::{sheet_text, write_text};
