// Memory that a call is lent to work in.
use flood::Entry;

// Slices of marks, levels, origins and heap entries. Each has a lifetime of its own.
#[derive(Drop)]
pub struct Scratch<'a, 'b, 'c, 'd, M> {
    pub marks: &'a mut [M],
    pub levels: &'b mut [Option<M>],
    pub origins: &'c mut [Option<usize>],
    pub heap: &'d mut [Entry<M>],
}
