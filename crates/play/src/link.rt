// The calls of the non-blocking driver, and the link after them.

ghost use Rattle.std.specs.Prelude.{◌≡◌, Some, length as size};
ghost use Rattle.registers.specs.CallLog.{over, report_of, report_of_answer};
ghost use Rattle.nonblocking.specs.Model.{model};
ghost use Rattle.play.specs.Link.{given, with_values, set_up_of, SetUp, Played, kept_text};
ghost use Rattle.script.specs.Settings.{configuration_of};

use arrayvec::ArrayVec;
use nonblocking::lent;
use nonblocking::link::{Called, Link};
use registers::answers::{Answer, Refusal};
use registers::call_log::Report;
use script::calls::{Construction, LinkCall, LinkValues};
use script::print::lines::Hex;
use script::text::bytes::{Bytes, MOST};
use std::fmt;

// A call with what its line gives.
pub fn play_link(link: Link, call: LinkCall<'_>, words: &[u32], log: &mut [u32]) -> Called
    ensures { Played words.now (model link) result.report (model result.link) log.old log.new call.entry }
{
    let mut buffer = ArrayVec::new();
    match call {
        LinkCall::Reset => left(Link::new()),
        LinkCall::Set(values) => left(set(link, values)),
        LinkCall::New(call) => construct(link, call, words, log),
        LinkCall::MasterWrite { address, bytes } => {
            link.master_write(address, given(bytes, &mut buffer), words, log)
        }
        LinkCall::MasterWriteRead {
            address,
            bytes,
            read_len,
        } => link.master_write_read(address, given(bytes, &mut buffer), read_len, words, log),
        LinkCall::MasterRead { address, read_len } => {
            link.master_read(address, read_len, words, log)
        }
        LinkCall::SlaveWrite(bytes) => link.slave_write(given(bytes, &mut buffer), words, log),
        LinkCall::Check => link.check_isr_flags(words, log),
        LinkCall::Watchdog => link.execute_watchdog(words, log),
        LinkCall::Errors => link.get_errors_reset(),
        LinkCall::MasterData => link.master_get_data(),
        LinkCall::SlaveData => link.slave_get_data(),
        LinkCall::Address => link.get_address(),
        LinkCall::Listen => link.listen(words, log),
        LinkCall::Unlisten => link.unlisten(words, log),
        LinkCall::SlaveSbc(sbc_enabled) => link.slave_sbc(sbc_enabled, words, log),
        LinkCall::SetAddress(address) => link.set_address(address, words, log),
    }
}

// The same on a lent link, by the calls that take one; the others go by value.
pub fn play_lent(link: &mut Link, call: LinkCall<'_>, words: &[u32], log: &mut [u32]) -> Report
    ensures { Played words.now (model link.old) result (model link.new) log.old log.new call.entry }
{
    let mut buffer = ArrayVec::new();
    match call {
        LinkCall::MasterWrite { address, bytes } => {
            lent::master_write(link, address, given(bytes, &mut buffer), words, log)
        }
        LinkCall::MasterWriteRead {
            address,
            bytes,
            read_len,
        } => {
            let bytes = given(bytes, &mut buffer);
            lent::master_write_read(link, address, bytes, read_len, words, log)
        }
        LinkCall::MasterRead { address, read_len } => {
            lent::master_read(link, address, read_len, words, log)
        }
        LinkCall::SlaveWrite(bytes) => {
            lent::slave_write(link, given(bytes, &mut buffer), words, log)
        }
        LinkCall::Check => lent::check_isr_flags(link, words, log),
        LinkCall::Watchdog => lent::execute_watchdog(link, words, log),
        LinkCall::Errors => lent::get_errors_reset(link),
        call => {
            let called = play_link(*link, call, words, log);
            *link = called.link;
            called.report
        }
    }
}

// The bytes that a line gives.
fn given<'a>(bytes: Bytes<'_>, buffer: &'a mut ArrayVec<u8, MOST>) -> &'a [u8]
    ensures { result.now ≡ given bytes.entry }
{
    bytes.write_to(buffer);
    buffer.as_slice()
}

// No call of the driver: no access, and the answer 0.
fn left(link: Link) -> Called
    ensures { (result.link ≡ link) × (result.report ≡ report_of_answer Answer.Done) }
{
    Called {
        link,
        report: Report::without_access(Answer::Done),
    }
}

// `nb set`
fn set(link: Link, values: LinkValues<'_>) -> Link
    ensures { model result ≡ with_values values.entry (model link) }
{
    Link {
        address: values.address.unwrap_or(link.address),
        watchdog: values.watchdog.unwrap_or(link.watchdog),
        index: values.index.unwrap_or(link.index),
        length: values.length.unwrap_or(link.length),
        errors: values.errors.unwrap_or(link.errors),
        marks: link.marks,
        length_write_read: values.length_write_read.unwrap_or(link.length_write_read),
        data: match values.data {
            Some(bytes) => with_front(link.data, bytes),
            None => link.data,
        },
    }
}

// The bytes over the first ones of the data, as many as have room.
#[tactic(auto, using(crate::proofs::Front::over_cut))]
fn with_front(mut data: [u8; 255], bytes: Bytes<'_>) -> [u8; 255]
    ensures { result ≡ over (given bytes.entry) «data» }
{
    let mut buffer = ArrayVec::new();
    let bytes = given(bytes, &mut buffer);
    let n = bytes.len().min(data.len());
    data[..n].copy_from_slice(&bytes[..n]);
    data
}

// `nb new`: a refusal leaves the link.
fn construct(mut link: Link, call: Construction, words: &[u32], log: &mut [u32]) -> Called
    ensures { SetUp (set_up_of (configuration_of call.settings) call.clock words.now (size log.old)) (model link) result.report (model result.link)
        log.old log.new }
{
    let tried = renew(&mut link, call, words, log);
    Called {
        link,
        report: Report::of(tried),
    }
}

// The set-up, where the filter's setter does not refuse.
fn renew(
    link: &mut Link,
    call: Construction,
    words: &[u32],
    log: &mut [u32],
) -> Result<Report, Refusal>
    ensures { SetUp (set_up_of (configuration_of call.settings) call.clock words.now (size log.old)) (model link.old) (report_of result)
        (model link.new) log.old log.new }
{
    link.renew(call.settings.config()?, call.clock, words, log)
}

// A link as it is kept.
#[derive(Clone, Copy, Debug, PartialEq, Eq)]
pub struct Kept<'a>(pub &'a Link);

impl fmt::Display for Kept<'_> {
    ghost output = { λ kept. Some (kept_text (model kept.0.now)) };

    #[tactic(auto, using(script::proofs::Padded::zeros_first, std::proofs::Common::append_assoc))]
    fn fmt<W: fmt::Write>(&self, f: &mut fmt::Formatter<W>) -> fmt::Result {
        let Kept(link) = *self;
        write!(
            f,
            "S {:04X} {} {} {} {} {} {}",
            link.address,
            link.watchdog,
            link.index,
            link.length,
            link.errors,
            link.length_write_read,
            Hex(&link.data),
        )
    }
}
