// The blocking calls that never wait.

ghost use Rattle.std.specs.Prelude.{length};
ghost use Rattle.registers.specs.CallLog.{Reported};
ghost use Rattle.play.specs.Unwaited.{unwaited};

use blocking::immediate::{clear_irq, i2c1, listen, slave_addressed, slave_sbc, unlisten};
use registers::call_log::Report;
use script::calls::{Construction, UnwaitedCall};

pub fn play_unwaited(call: UnwaitedCall, words: &[u32], log: &mut [u32]) -> Report
    ensures { Reported (unwaited call words.now (length log.old)) log.old result log.new }
{
    match call {
        UnwaitedCall::New(Construction { clock, settings }) => match settings.config() {
            Ok(config) => i2c1(config, clock, words, log),
            Err(refusal) => Report::from(refusal),
        },
        UnwaitedCall::SlaveAddressed => slave_addressed(words, log),
        UnwaitedCall::SlaveSbc(sbc_enabled) => slave_sbc(sbc_enabled, words, log),
        UnwaitedCall::Listen(event) => listen(event, words, log),
        UnwaitedCall::Unlisten(event) => unlisten(event, words, log),
        UnwaitedCall::ClearIrq(event) => clear_irq(event, log),
    }
}
