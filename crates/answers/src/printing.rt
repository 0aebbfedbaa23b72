// Text that is printed.
ghost use Rattle.std.specs.Prelude.{◌≡◌, ◌++◌, MatchResult};
ghost use Rattle.marks.specs.declared.refusal.Refusal.TheVariants.{NoMemory};
ghost use Rattle.answers.specs.Printed.{raised_line};

use marks::Refusal;
use std::alloc::Global;

// Appends the line that says how many cells rose.
pub(crate) fn append_raised(heap: Global, text: &mut Vec<u8>, n: usize) -> Result<(), Refusal>
    ensures { MatchResult result (λ _. text.new.items ≡ text.old.items ++ raised_line n) (λ e. e ≡ NoMemory) }
{
    let line = format!(in heap; "(raised {n})\n")?;
    text.extend_from_slice(line.as_bytes())?;
    Ok(())
}
