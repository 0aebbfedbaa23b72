// A binary heap over a slice that its user lends.
ghost use Rattle.std.specs.Prelude.{◌≤◌, length};
ghost use Rattle.flood.specs.Orders.{Ordered};

use crate::sift::{rise, sink};
use marks::{Order, Refusal};

// The places from `foot` up to `head`, each the parent of the one before.
#[derive(Clone, Copy, Debug, PartialEq, Eq)]
pub struct Path {
    pub foot: usize,
    pub head: usize,
}

// The first `len` of the slots hold the elements: the children of the place p are 2p + 1 and 2p + 2, and none is below
// its parent. No `Vec`: the memory is lent.
#[derive(Drop)]
pub struct Heap<'a, E: Order> {
    slots: &'a mut [E],
    len: usize,
    ghost within: { len ≤ length slots.now },
    ghost ordered: { Ordered E.Order.leb slots.now len },
    // Where the last call moved elements: who keeps the places of elements elsewhere can follow it.
    path: Path,
}

impl<'a, E: Order> Heap<'a, E> {
    ghost use Rattle.std.specs.Prelude.{◌≡◌, min, [], ◌∷◌};
    ghost use Rattle.std.specs.List.{slice_get};
    ghost use Rattle.marks.specs.Refusals.{told, checked};
    ghost use Rattle.flood.specs.Heaps.{contents, room, full, above, Put, Taken, LeastOf, Lowered};

    // An empty heap in the slots.
    pub fn new(slots: &'a mut [E]) -> Heap<'a, E>
        ensures value { (contents result ≡ []) × (result.len ≡ 0) × (result.path.foot ≡ 0) × (result.path.head ≡ 0) }
        ensures loans { result.slots ≡ slots.entry }
    {
        Heap {
            slots,
            len: 0,
            path: Path { foot: 0, head: 0 },
        }
    }

    // How many elements it holds.
    pub fn len(&self) -> usize
        ensures value { result ≡ length (contents self.now) }
        ensures within { result ≡ min self.now.len (room self.now) }
    {
        self.len // within the slots
    }

    // The places on which the last call that was not refused moved elements.
    pub(crate) fn path(&self) -> Path
        ensures { result ≡ self.now.path }
    {
        self.path
    }

    // The element at a place.
    pub fn look(&self, place: usize) -> Option<E>
        ensures { result ≡ slice_get (contents self.now) place }
    {
        let slots = &*self.slots;
        slots[..self.len].get(place).copied()
    }

    // Puts an element in.
    pub fn put(&mut self, x: E) -> Result<(), Refusal>
        ensures told { told result ≡ checked ((full self.old, 25) ∷ []) tt }
        ensures leaves { Put self.old x result self.new }
        ensures loans { self.new.slots.ghost_name ≡ self.old.slots.ghost_name }
    {
        let last = self.len;
        if self.slots.len() <= last {
            return Err(Refusal::HeapFull);
        }
        let slots = &mut *self.slots;
        slots[last] = x;
        let head = rise(slots, last);
        self.len = last + 1;
        self.path = Path { foot: last, head };
        Ok(())
    }

    // Takes a least element out.
    pub fn take(&mut self) -> Option<E>
        ensures leaves { Taken self.old result self.new }
        ensures least { LeastOf E.Order.leb self.old result }
        ensures loans { self.new.slots.ghost_name ≡ self.old.slots.ghost_name }
    {
        let last = self.len.checked_sub(1)?;
        let slots = &mut *self.slots;
        let least = slots[0];
        slots.swap(0, last);
        let foot = sink(slots, last);
        self.len = last;
        self.path = Path { foot, head: 0 };
        Some(least)
    }

    // Replaces the element at a place by another that is at most it.
    pub fn lower(&mut self, place: usize, x: E) -> Result<(), Refusal>
        ensures told { told result ≡ checked ((above E.Order.leb x (slice_get (contents self.old) place), 26) ∷ []) tt }
        ensures leaves { Lowered self.old place x result self.new }
        ensures loans { self.new.slots.ghost_name ≡ self.old.slots.ghost_name }
    {
        let old = self.look(place).ok_or(Refusal::NoLowering)?;
        if !x.at_most(&old) {
            return Err(Refusal::NoLowering);
        }
        let slots = &mut *self.slots;
        slots[place] = x;
        let head = rise(slots, place);
        self.path = Path { foot: place, head };
        Ok(())
    }
}
