ghost use Rattle.std.specs.Prelude.{◌≡◌, ◌+◌, ◌≤◌, length, take, drop, replicate};
ghost use borrow.Rule.Slice.PartMut.{put_mid};

// The memory that a caller lends to a chip, with the calls that both chips make on it.
// A wrapper, since a write straight through a slice of the chip's own would owe the chip's invariant at once,
// and a chip's program or erase holds it again only after its second write.
#[derive(Drop)]
pub struct Memory<'a> {
    pub(crate) bytes: &'a mut [u8],
}

impl<'a> Memory<'a> {
    // Writes the bytes from a place on.
    pub(crate) fn put(&mut self, at: usize, bytes: &[u8])
        requires { at + length bytes.now ≤ length self.old.bytes.now }
        ensures { self.new.bytes.now ≡ put_mid at (length bytes.now) self.old.bytes.now bytes.now }
    {
        self.bytes[at..at + bytes.len()].copy_from_slice(bytes);
    }

    // Writes one byte to n places from one on.
    pub(crate) fn fill(&mut self, at: usize, n: usize, byte: u8)
        requires { at + n ≤ length self.old.bytes.now }
        ensures { self.new.bytes.now ≡ put_mid at n self.old.bytes.now (replicate n byte) }
    {
        self.bytes[at..at + n].fill(byte);
    }

    // Fills a buffer with what lies from a place on.
    pub(crate) fn get(&self, at: usize, into: &mut [u8])
        requires { at + length into.old ≤ length self.now.bytes.now }
        ensures { into.new ≡ take (length into.old) (drop at self.now.bytes.now) }
    {
        let n = into.len();
        into.copy_from_slice(&self.bytes[at..at + n]);
    }

    // The bytes, to look at.
    pub(crate) fn bytes(&self) -> &[u8]
        ensures { result.now ≡ self.now.bytes.now }
    {
        &self.bytes[..]
    }

    // Gives the memory back to its owner.
    pub(crate) fn into_bytes(self) -> &'a mut [u8]
        ensures { result.now ≡ self.entry.bytes.now }
    {
        let Memory { bytes } = self;
        bytes
    }
}
