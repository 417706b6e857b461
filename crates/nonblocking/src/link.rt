// The link, what a call gives back, and the few changes to a link.

ghost use Rattle.std.specs.Prelude.{◌≡◌, ◌≤◌, true, false, IfErr, OnErr, OnOk, length};
ghost use Rattle.registers.specs.CallLog.{report_of, over};
ghost use Rattle.nonblocking_meaning.specs.Link.{one_more, fresh, impossible};
ghost use Rattle.nonblocking.specs.Model.{model};

use registers::answers::Refusal;
use registers::call_log::Report;

// What a link holds between calls.
#[repr(C)]
#[derive(Clone, Copy, Debug, PartialEq, Eq)]
pub struct Link {
    pub address: u16,
    // On each start set to 10, on each stop set to 0.
    pub watchdog: u16,
    pub index: usize,
    pub length: usize,
    // Errors since the count was last read.
    pub errors: u32,
    // One word; each mark is a field of it. No mark is in use yet.
    pub marks: u32,
    // For a `master_write_read`, the length of the read that follows.
    pub length_write_read: usize,
    // C has these bytes with their count beside them, so they are no vector.
    pub data: [u8; 255],
}

// What a call gives back: the link, and its answer with the words taken and the places logged.
// The bytes that an answer shows are the first ones of the link's data, as many as its count.
#[derive(Clone, Copy, Debug, PartialEq, Eq)]
pub struct Called {
    pub link: Link,
    pub report: Report,
}

impl Called {
    // The link after a call, and the call's report or refusal. Document 01: a link goes in and comes back by value, and a later form lends it.
    pub(crate) fn of(link: Link, tried: Result<Report, Refusal>) -> Called
        ensures { (result.link ≡ link) × (result.report ≡ report_of tried) }
    {
        Called {
            link,
            report: Report::of(tried),
        }
    }
}

impl Link {
    // The link as constructed.
    pub fn new() -> Link
        ensures { model result ≡ fresh }
    {
        Link {
            address: 0,
            watchdog: 0,
            index: 0,
            length: 0,
            errors: 0,
            marks: 0,
            length_write_read: 0,
            data: [0u8; 255],
        }
    }

    // Answer 12. No run of calls leaves such a link (`never_impossible`).
    #[tactic(auto, unfolding(nonblocking_meaning::specs::Link::impossible))]
    pub(crate) fn possible(&self) -> Result<(), Refusal>
        ensures ok { OnOk result (impossible (model self.now) ≡ false) }
        ensures length { OnOk result (self.now.length ≤ 255) }
        ensures err { OnErr result (impossible (model self.now) ≡ true) }
        ensures refusal { IfErr result (λ refusal. refusal ≡ Refusal.ImpossibleLink) }
    {
        let past_the_buffer = 255 < self.length || 255 < self.length_write_read;
        if self.length < self.index || past_the_buffer || 10 < self.watchdog {
            return Err(Refusal::ImpossibleLink);
        }
        Ok(())
    }

    // A transfer of so many bytes with this address begins. A start writes all marks.
    pub(crate) fn begin(&mut self, address: u16, length: usize, marks: u32)
        ensures { self.new ≡ record self.old { address = address; watchdog = 10; index = 0; length = length; marks = marks } }
    {
        self.address = address;
        self.watchdog = 10;
        self.index = 0;
        self.length = length;
        self.marks = marks;
    }

    // Bytes go to the front of the buffer.
    #[tactic(auto, using(registers::proofs::HandedOn::over_front))]
    pub(crate) fn keep(&mut self, bytes: &[u8])
        requires { length bytes.now ≤ 255 }
        ensures { self.new ≡ record self.old { «data» = over bytes.now self.old.«data» } }
    {
        self.data[..bytes.len()].copy_from_slice(bytes);
    }

    // One more error; the count stops at its top.
    #[tactic(auto, unfolding(nonblocking_meaning::specs::Link::one_more))]
    pub(crate) fn count_error(&mut self)
        ensures { self.new ≡ record self.old { errors = one_more self.old.errors } }
    {
        self.errors = self.errors.saturating_add(1);
    }
}
