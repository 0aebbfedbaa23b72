// The two ways in which an element finds its place among the first of a slice. What it passes moves into the hole that it
// leaves, and it is written once, at the end.
ghost use Rattle.std.specs.Prelude.{◌≡◌, ℕ, ◌+◌, ◌*◌, ◌<◌, ◌≤◌, length};
ghost use Rattle.flood.specs.Orders.{Rises, Sinks, Best, Moves};

use marks::Order;

// Moves the element at `at` up, until its parent is at most it, and says where it stands then.
pub(crate) fn rise<E: Order>(slots: &mut [E], mut at: usize) -> usize
    requires { at < length slots.old }
    ensures len { length slots.new ≡ length slots.old }
    ensures rises { Rises E.Order.leb slots.old «at» slots.new }
    ensures moves { (((n : ℕ) → Moves slots.old slots.new n «at» result)) × (result ≤ «at») }
{
    let x = slots[at];
    // From parent to parent the place halves: no walk over the slice.
    while 0 < at {
        let up = (at - 1) / 2;
        let parent = slots[up];
        if parent.at_most(&x) {
            slots[at] = x;
            return at;
        }
        slots[at] = parent;
        at = up;
    }
    slots[0] = x;
    0
}

// Moves the first element down among the first `len`, until it is at most its children, and says where it stands then.
pub(crate) fn sink<E: Order>(slots: &mut [E], len: usize) -> usize
    requires { (0 < length slots.old) × (len ≤ length slots.old) }
    ensures len { length slots.new ≡ length slots.old }
    ensures sinks { Sinks E.Order.leb slots.old len slots.new }
    ensures moves { Moves slots.old slots.new len result 0 }
{
    let x = slots[0];
    let mut at = 0;
    // From child to child the place doubles: no walk over the slice.
    while at < len / 2 {
        let child = lesser_child(slots, at, len);
        let lesser = slots[child];
        if x.at_most(&lesser) {
            slots[at] = x;
            return at;
        }
        slots[at] = lesser;
        at = child;
    }
    slots[at] = x;
    at
}

// The place of the child of `at` that is at most the other.
fn lesser_child<E: Order>(slots: &[E], at: usize, len: usize) -> usize
    requires { (2 * «at» + 1 < len) × (len ≤ length slots.now) }
    ensures bound { (result < len) × («at» * 2 + 1 ≤ result) × (result ≤ «at» * 2 + 2) }
    ensures best { Best E.Order.leb slots.now «at» result len }
{
    let left = 2 * at + 1;
    if len <= left + 1 {
        return left;
    }
    if slots[left].at_most(&slots[left + 1]) {
        return left;
    }
    left + 1
}
