// Small cases that a planner would check by hand, as one theorem on the definitions that the contracts cite.
#![tactic(auto)]

ghost use Rattle.std.specs.Prelude.{◌≡◌};
ghost use Rattle.cases.specs.Sheets.{heights, classes};
ghost use Rattle.cases.specs.Worked.{CasesHold};

use marks::{Class, Height, Mark, Order};

// Every worked case holds.
pub fn cases_hold()
    ensures { CasesHold }
{}

// The order of heights is the one that the cases are about.
pub fn height_at_most(a: &Height, b: &Height) -> bool
    ensures { result ≡ heights.leb a.now b.now }
{
    a.at_most(b)
}

// And so is the void of heights.
pub fn height_void() -> Height
    ensures { result ≡ heights.void }
{
    Height::void()
}

// The order of classes is the one that the cases are about.
pub fn class_at_most(x: &Class, y: &Class) -> bool
    ensures { result ≡ classes.leb x.now y.now }
{
    x.at_most(y)
}

// And so is the void of classes.
pub fn class_void() -> Class
    ensures { result ≡ classes.void }
{
    Class::void()
}
