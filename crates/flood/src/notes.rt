// Where entries stand in a heap, noted in their nodes' slots.
ghost use Rattle.std.specs.Prelude.{◌≡◌, true};
ghost use Rattle.flood.specs.Heaps.{contents};
ghost use Rattle.flood.specs.Places.{Noted, Placed, HalfPlaced, Single, Kept};

use crate::entry::Entry;
use crate::heap::Heap;
use marks::Mark;

// Writes the place of the entry that stands there, if one does, to its node's slot.
fn note<M: Mark>(heap: &Heap<Entry<M>>, origins: &mut [Option<usize>], place: usize)
    requires { Single origins.old (contents heap.now) }
    ensures noted { Noted origins.old (contents heap.now) place origins.new }
    ensures kept { Kept origins.old origins.new (contents heap.now) }
{
    if let Some(x) = heap.look(place) {
        origins[x.node] = Some(place);
    }
}

// Notes the places of all entries.
pub(crate) fn note_all<M: Mark>(heap: &Heap<Entry<M>>, origins: &mut [Option<usize>])
    requires { Single origins.old (contents heap.now) }
    ensures placed { Placed origins.new (contents heap.now) }
    ensures kept { Kept origins.old origins.new (contents heap.now) }
{
    // What is noted is the place itself.
    for place in 0..heap.len() {
        note(heap, origins, place);
    }
}

// Notes the places on which the heap's last call moved entries.
fn note_path<M: Mark>(heap: &Heap<Entry<M>>, origins: &mut [Option<usize>])
    requires single { Single origins.old (contents heap.now) }
    requires half { HalfPlaced origins.old (contents heap.now) heap.now.path.foot heap.now.path.head }
    ensures placed { Placed origins.new (contents heap.now) }
    ensures kept { Kept origins.old origins.new (contents heap.now) }
{
    let path = heap.path();
    let mut place = path.foot;
    note(heap, origins, place);
    // From parent to parent the place halves: no walk over the slots.
    while path.head < place {
        place = (place - 1) / 2;
        note(heap, origins, place);
    }
}

// Notes, where places are kept, those on which the heap's last call moved entries.
pub(crate) fn follow<M: Mark>(heap: &Heap<Entry<M>>, origins: &mut [Option<usize>], placed: bool)
    requires single { Single origins.old (contents heap.now) }
    requires half { placed ≡ true → HalfPlaced origins.old (contents heap.now) heap.now.path.foot heap.now.path.head }
    ensures placed { placed ≡ true → Placed origins.new (contents heap.now) }
    ensures kept { Kept origins.old origins.new (contents heap.now) }
{
    if placed {
        note_path(heap, origins);
    }
}
