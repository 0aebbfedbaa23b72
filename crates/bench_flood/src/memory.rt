// The memory that a flood works in, and heights as bytes.
use flood::Entry;
use marks::{Height, Mark};
use std::alloc::{AllocError, Global};

// Levels, origins and heap slots for a number of nodes.
#[derive(Drop)]
pub(crate) struct Memory {
    pub(crate) levels: Vec<Option<Height>>,
    pub(crate) origins: Vec<Option<usize>>,
    pub(crate) slots: Vec<Entry<Height>>,
}

// The heights that bytes hold, two for each.
pub(crate) fn heights(heap: Global, bytes: &[u8]) -> Result<Vec<Height>, AllocError> {
    let mut all = Vec::with_capacity(heap, bytes.len() / 2)?;
    for pair in bytes.as_chunks::<2>().0 {
        let dm = i16::from_le_bytes(*pair);
        all.push(Height::new(dm).unwrap_or(Height::void()))?;
    }
    Ok(all)
}

impl Memory {
    // Memory for so many nodes.
    pub(crate) fn new(heap: Global, nodes: usize) -> Result<Memory, AllocError> {
        let entry = Entry {
            level: Height::void(),
            node: 0,
            origin: 0,
        };
        Ok(Memory {
            levels: vec![in heap; None; nodes]?,
            origins: vec![in heap; None; nodes]?,
            slots: vec![in heap; entry; nodes]?,
        })
    }

    // The levels as bytes, two for each; those of void where a node has none.
    pub(crate) fn levels(&self, heap: Global) -> Result<Vec<u8>, AllocError> {
        let mut bytes = Vec::new(heap);
        for level in self.levels.iter() {
            let dm = level
                .and_then(|height| height.decimetres())
                .unwrap_or(i16::MIN);
            bytes.extend_from_slice(&dm.to_le_bytes())?;
        }
        Ok(bytes)
    }
}
