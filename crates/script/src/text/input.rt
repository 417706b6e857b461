// An input, of which some bytes are read ahead.

ghost use Rattle.std.specs.Prelude.{◌≤◌, ◌≡◌, ◌+◌, nat_lt, length, take, slice_range};
ghost use Rattle.std.specs.Io.KnownBytes.{Keeps, Consumes};
ghost use Rattle.script.specs.Unread.{unread};

use std::io::Read;

// A reader, and of the bytes that were read the ones that come next. The library's own buffered reader takes an allocator and can fail, which no
// program here can.
#[derive(Drop)]
pub(crate) struct Input<R> {
    reader: R,
    bytes: [u8; 4096],
    start: usize,
    end: usize,
    ghost ordered: { start ≤ end },
    ghost within: { end ≤ 4096 },
}

impl<R: Read> Input<R> {
    pub(crate) fn new(reader: R) -> Input<R>
        ensures { unread result.bytes result.start result.end (R.remaining result.reader) ≡ R.remaining reader }
    {
        Input {
            reader,
            bytes: [0; 4096],
            start: 0,
            end: 0,
        }
    }

    // Reads on where all bytes were given; whether there are any now. There are none at the input's end, which is also where it
    // cannot be read.
    pub(crate) fn fill(&mut self) -> bool
        ensures keeps { Keeps (unread self.old.bytes self.old.start self.old.end (R.remaining self.old.reader))
            (unread self.new.bytes self.new.start self.new.end (R.remaining self.new.reader)) }
        ensures any { result ≡ nat_lt self.new.start self.new.end }
    {
        if self.start == self.end {
            let count = self.reader.read(&mut self.bytes).unwrap_or(0);
            self.start = 0;
            self.end = count;
        }
        self.start < self.end
    }

    // The bytes that were read and not yet given.
    pub(crate) fn bytes(&self) -> &[u8]
        ensures value { result.now ≡ slice_range self.now.bytes self.now.start self.now.end }
        ensures len { (length result.now + self.now.start ≡ self.now.end) × (length result.now ≤ 4096) }
    {
        let bytes = &self.bytes;
        &bytes[self.start..self.end]
    }

    // So many of them are given.
    #[tactic(auto, using(crate::proofs::Unread::consumed))]
    pub(crate) fn consume(&mut self, count: usize)
        requires { self.old.start + count ≤ self.old.end }
        ensures { Consumes (unread self.old.bytes self.old.start self.old.end (R.remaining self.old.reader))
            (unread self.new.bytes self.new.start self.new.end (R.remaining self.new.reader))
            (take count (slice_range self.old.bytes self.old.start self.old.end)) }
    {
        self.start += count;
    }
}
