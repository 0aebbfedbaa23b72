// The bracket text of a sheet, and reading it.
#![tactic(auto)]

mod checking;
mod cursor;
mod heading;
mod reading;
mod tokens;

pub use checking::check_text;
pub use cursor::Cursor;
pub use heading::Heading;
pub use reading::read_sheet;
pub use tokens::{Token, part_at, written};
