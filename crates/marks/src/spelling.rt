// The bytes by which a mark is spelled.
ghost use Rattle.std.specs.Prelude.{◌≡◌, ℕ, ◌<◌, ◌≤◌, drop};

// At most six bytes, at the end of an array: marks are spelled where there is no heap.
#[derive(Clone, Copy)]
pub struct Spelling {
    pub(crate) bytes: [u8; 6],
    pub(crate) start: usize,
    ghost within: { start ≤ 6 },
}

impl Spelling {
    pub fn as_bytes(&self) -> &[u8]
        ensures { result.now ≡ drop self.now.start self.now.bytes }
    {
        &self.bytes[self.start..]
    }
}
