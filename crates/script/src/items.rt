// The tokens of a call, from the driver's name to its last option.

use crate::calls::{Call, ConfigCall, Construction, LinkCall, UnwaitedCall, WaitingCall};
use crate::options::{link_values, settings, slices};
use crate::text::bytes::{Bytes, MOST};
use crate::text::numbers::{decimal, hex};
use registers::isr::Event;

pub(crate) fn call<'a>(items: &[&'a str]) -> Option<Call<'a>> {
    Some(match items {
        ["nb", items @ ..] => Call::Link(link_call(items)?),
        ["bl", items @ ..] => match waiting_call(items) {
            Some(call) => Call::Waiting(call),
            None => Call::Unwaited(unwaited_call(items)?),
        },
        ["cfg", items @ ..] => Call::Config(config_call(items)?),
        _ => return None,
    })
}

fn link_call<'a>(items: &[&'a str]) -> Option<LinkCall<'a>> {
    Some(match items {
        ["reset"] => LinkCall::Reset,
        ["set", options @ ..] => LinkCall::Set(link_values(options)?),
        ["new", items @ ..] => LinkCall::New(construction(items)?),
        ["master_write", address, bytes] => LinkCall::MasterWrite {
            address: hex(address)?,
            bytes: slice(bytes)?,
        },
        ["master_write_read", address, bytes, read_len] => LinkCall::MasterWriteRead {
            address: hex(address)?,
            bytes: slice(bytes)?,
            read_len: decimal(read_len)?,
        },
        ["master_read", address, read_len] => LinkCall::MasterRead {
            address: hex(address)?,
            read_len: decimal(read_len)?,
        },
        ["slave_write", bytes] => LinkCall::SlaveWrite(slice(bytes)?),
        ["check"] => LinkCall::Check,
        ["watchdog"] => LinkCall::Watchdog,
        ["errors"] => LinkCall::Errors,
        ["data_m"] => LinkCall::MasterData,
        ["data_s"] => LinkCall::SlaveData,
        ["addr_m" | "addr_s"] => LinkCall::Address,
        ["listen"] => LinkCall::Listen,
        ["unlisten"] => LinkCall::Unlisten,
        ["sbc", switch] => LinkCall::SlaveSbc(is_on(switch)?),
        ["set_address", address] => LinkCall::SetAddress(hex(address)?),
        _ => return None,
    })
}

fn waiting_call<'a>(items: &[&'a str]) -> Option<WaitingCall<'a>> {
    Some(match items {
        ["write", address, send] => WaitingCall::Write {
            address: hex(address)?,
            send: slice(send)?,
        },
        ["read", address, recv] => WaitingCall::Read {
            address: hex(address)?,
            recv: slice(recv)?,
        },
        ["write_read", address, send, recv] => WaitingCall::WriteRead {
            address: hex(address)?,
            send: slice(send)?,
            recv: slice(recv)?,
        },
        ["slave_write", send] => WaitingCall::SlaveWrite(slice(send)?),
        ["slave_read", recv] => WaitingCall::SlaveRead(slice(recv)?),
        ["slave_wait_addressed"] => WaitingCall::SlaveWaitAddressed,
        ["resume", options @ ..] => WaitingCall::Resume(slices(options)?),
        _ => return None,
    })
}

fn unwaited_call(items: &[&str]) -> Option<UnwaitedCall> {
    Some(match items {
        ["new", items @ ..] => UnwaitedCall::New(construction(items)?),
        ["slave_addressed"] => UnwaitedCall::SlaveAddressed,
        ["sbc", switch] => UnwaitedCall::SlaveSbc(is_on(switch)?),
        ["listen", token] => UnwaitedCall::Listen(event(token)?),
        ["unlisten", token] => UnwaitedCall::Unlisten(event(token)?),
        ["clear_irq", token] => UnwaitedCall::ClearIrq(event(token)?),
        _ => return None,
    })
}

fn config_call(items: &[&str]) -> Option<ConfigCall> {
    Some(match items {
        ["timing", items @ ..] => ConfigCall::Timing(construction(items)?),
        ["filter", cycles] => ConfigCall::Filter(decimal(cycles)?),
        ["period", word] => ConfigCall::Period(hex(word)?),
        _ => return None,
    })
}

fn construction(items: &[&str]) -> Option<Construction> {
    let [clock, options @ ..] = items else {
        return None;
    };
    Some(Construction {
        clock: decimal(clock)?,
        settings: settings(options)?,
    })
}

// A slice that a call is lent: it may be too long for the call.
fn slice(token: &str) -> Option<Bytes<'_>> {
    Bytes::of(token, MOST)
}

fn is_on(token: &str) -> Option<bool> {
    match token {
        "0" => Some(false),
        "1" => Some(true),
        _ => None,
    }
}

fn event(token: &str) -> Option<Event> {
    match token {
        "addr" => Some(Event::AddressMatch),
        "rxne" => Some(Event::Rxne),
        _ => None,
    }
}
