// The nodes that wait, in a heap of entries.
ghost use Rattle.std.specs.Prelude.{◌≡◌, true};
ghost use Rattle.std.proofs.Props.{props};
ghost use Rattle.flood.specs.Heaps.{contents};
ghost use Rattle.flood.specs.Places.{Single, Placed};

use crate::entry::Entry;
use crate::heap::Heap;
use crate::notes::{follow, note_all};
use marks::{Mark, Order};

// A heap of entries. Where a node that waits stands in it is asked only when its entry is lowered, which many grounds
// never do. So places are kept from the first lowering on: each in the slot in which its node's origin will stand, which
// nobody reads before the node leaves the queue.
#[derive(Drop)]
pub struct Queue<'h, 'a, 'b, M: Mark>
where
    Entry<M>: Order,
{
    heap: &'h mut Heap<'a, Entry<M>>,
    origins: &'b mut [Option<usize>],
    placed: bool,
    ghost single: { Single origins.now (contents heap.now) },
    ghost right: { placed ≡ true → Placed origins.now (contents heap.now) } by { Prim.hlevel props },
}

impl<'h, 'a, 'b, M: Mark> Queue<'h, 'a, 'b, M> {
    ghost use Rattle.std.specs.Prelude.{ℕ, ◌<◌, false, List, [], length, None, Option, slice_set};
    ghost use Rattle.std.specs.List.{AllByRecursion};
    ghost use Rattle.flood.specs.Heaps.{room};
    ghost use Rattle.flood.specs.Places.{times, Kept};
    ghost use Rattle.flood.specs.Queues.{waiting, Joined, Left, Replaced};

    // An empty queue in a heap that holds nothing.
    pub(crate) fn new(
        heap: &'h mut Heap<'a, Entry<M>>,
        origins: &'b mut [Option<usize>],
    ) -> Queue<'h, 'a, 'b, M>
        requires { contents heap.old ≡ [] }
        ensures heap { result.heap ≡ heap.entry }
        ensures origins { result.origins ≡ origins.entry }
    {
        Queue {
            heap,
            origins,
            placed: false,
        }
    }

    // Writes that a node which does not wait has no origin.
    pub(crate) fn leave_out(&mut self, node: usize)
        requires { (times node (waiting self.old) ≡ 0) × (node < length self.old.origins.now) }
        ensures origins { self.new.origins.now ≡ slice_set self.old.origins.now node None }
        ensures same { self.new.heap.now ≡ self.old.heap.now }
        ensures loans { (self.new.heap.ghost_name ≡ self.old.heap.ghost_name) × (self.new.origins.ghost_name ≡ self.old.origins.ghost_name) }
    {
        self.origins[node] = None;
    }

    // Keeps places from now on.
    fn keep_places(&mut self)
        ensures placed { self.new.placed ≡ true }
        ensures same { self.new.heap.now ≡ self.old.heap.now }
        ensures kept { Kept self.old.origins.now self.new.origins.now (waiting self.old) }
        ensures loans { (self.new.heap.ghost_name ≡ self.old.heap.ghost_name) × (self.new.origins.ghost_name ≡ self.old.origins.ghost_name) }
    {
        if self.placed {
            return;
        }
        let heap = &mut *self.heap;
        let origins = &mut *self.origins;
        note_all(heap, origins);
        self.placed = true;
    }

    // Lets a node wait that does not.
    pub(crate) fn put(&mut self, x: Entry<M>)
        requires room { self.old.heap.now.len < room self.old.heap.now }
        requires fresh { (times x.node (waiting self.old) ≡ 0) × (x.node < length self.old.origins.now) }
        ensures leaves { Joined self.old x self.new }
        ensures loans { (self.new.heap.ghost_name ≡ self.old.heap.ghost_name) × (self.new.origins.ghost_name ≡ self.old.origins.ghost_name) }
    {
        let heap = &mut *self.heap;
        let origins = &mut *self.origins;
        // There is room.
        let _ = heap.put(x);
        follow(heap, origins, self.placed);
    }

    // Takes a node that waits at a least level, and writes its origin.
    pub(crate) fn take(&mut self) -> Option<Entry<M>>
        ensures leaves { Left M.Order.leb self.old result self.new }
        ensures loans { (self.new.heap.ghost_name ≡ self.old.heap.ghost_name) × (self.new.origins.ghost_name ≡ self.old.origins.ghost_name) }
    {
        let heap = &mut *self.heap;
        let origins = &mut *self.origins;
        let x = heap.take()?;
        origins[x.node] = Some(x.origin);
        follow(heap, origins, self.placed);
        Some(x)
    }

    // Puts an entry in the place of the one that its node has, which is above it.
    pub(crate) fn lower(&mut self, x: Entry<M>)
        requires waits { times x.node (waiting self.old) ≡ 1 }
        requires falls { AllByRecursion (λ y. y.node ≡ x.node → M.Order.leb y.level x.level ≡ false) (waiting self.old) }
        ensures leaves { Replaced self.old x self.new }
        ensures loans { (self.new.heap.ghost_name ≡ self.old.heap.ghost_name) × (self.new.origins.ghost_name ≡ self.old.origins.ghost_name) }
    {
        self.keep_places();
        let heap = &mut *self.heap;
        let origins = &mut *self.origins;
        if let Some(place) = origins[x.node] {
            // What stands there is above it.
            let _ = heap.lower(place, x);
            follow(heap, origins, self.placed);
        }
    }
}
