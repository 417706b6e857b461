// Standard output, written in large parts. The library's own buffered writer takes an allocator and can fail, which no program here can.

ghost use Rattle.std.specs.Prelude.{◌≡◌, []};
ghost use Rattle.script.specs.Output.{held, Holds};

use arrayvec::ArrayVec;
use std::fmt;
use std::io::Print;

#[derive(Drop)]
pub struct Output<P> {
    rt: P,
    // What is still to be written.
    bytes: ArrayVec<u8, 65_536>,
}

impl<P: Print> Output<P> {
    pub fn new(rt: P) -> Output<P>
        ensures { held result ≡ [] }
    {
        Output {
            rt,
            bytes: ArrayVec::new(),
        }
    }

    // Writes what is still to be written.
    pub fn flush(&mut self)
        ensures { held self.new ≡ [] }
    {
        // A reader that is gone is told nothing more.
        let _ = self.rt.write_all(self.bytes.as_slice());
        self.bytes.clear();
    }
}

impl<P: Print> fmt::Write for Output<P> {
    ghost write_str_gives = { λ old text new. Holds old text new };

    fn write_str(&mut self, s: &str) -> fmt::Result {
        if self.bytes.remaining_capacity() < s.len() {
            self.flush();
        }
        self.bytes
            .try_extend_from_slice(s.as_bytes())
            .map_err(|_| fmt::Error)
    }
}
