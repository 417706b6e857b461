// The options of a call, in any order. None comes twice.

use crate::calls::{LinkValues, Slices};
use crate::settings::{Filter, OwnAddress, Settings};
use crate::text::bytes::{Bytes, MOST};
use crate::text::numbers::{decimal, hex};
use registers::config::SlaveAddressMask;

// Keeps a value where there is none yet.
fn put<T: Drop>(kept: &mut Option<T>, value: Option<T>) -> Option<()> {
    if kept.is_some() {
        return None;
    }
    *kept = Some(value?);
    Some(())
}

// The options, each put by its key.
fn options_of<'a, T: Default + Drop, F: Fn(&mut T, &str, &'a str) -> Option<()>>(
    options: &[&'a str],
    put_one: F,
) -> Option<T>
    requires { F.IsAlwaysCallable put_one }
{
    let mut values = T::default();
    for option in options {
        let (key, value) = option.split_once('=')?;
        put_one(&mut values, key, value)?;
    }
    Some(values)
}

// The options of `nb set`.
pub(crate) fn link_values<'a>(options: &[&'a str]) -> Option<LinkValues<'a>> {
    options_of(options, |values: &mut LinkValues, key, value| match key {
        "addr" => put(&mut values.address, hex(value)),
        "wd" => put(&mut values.watchdog, decimal(value)),
        "idx" => put(&mut values.index, decimal(value)),
        "len" => put(&mut values.length, decimal(value)),
        "err" => put(&mut values.errors, decimal(value)),
        "second" => put(&mut values.length_write_read, decimal(value)),
        "data" => put(&mut values.data, Bytes::of(value, 255)),
        _ => None,
    })
}

// The options of `bl resume`.
pub(crate) fn slices<'a>(options: &[&'a str]) -> Option<Slices<'a>> {
    options_of(options, |slices: &mut Slices, key, value| match key {
        "send" => put(&mut slices.send, Bytes::of(value, MOST)),
        "recv" => put(&mut slices.recv, Bytes::of(value, MOST)),
        _ => None,
    })
}

// The options that are a configuration. Of `filter` and `dnf` and of the first own addresses only one may stand.
pub(crate) fn settings(options: &[&str]) -> Option<Settings> {
    options_of(options, |settings: &mut Settings, key, value| match key {
        "speed" => put(&mut settings.speed, decimal(value)),
        "timing" => put(&mut settings.timing, hex(value)),
        "analog" => put(&mut settings.analog_filter, off(value)),
        "filter" => put(
            &mut settings.digital_filter,
            decimal(value).map(Filter::Setter),
        ),
        "dnf" => put(
            &mut settings.digital_filter,
            decimal(value).map(Filter::Field),
        ),
        "own7" => put(&mut settings.slave_address_1, seven_bits(value)),
        "own10" => put(
            &mut settings.slave_address_1,
            hex(value).map(OwnAddress::Ten),
        ),
        "own7raw" => put(
            &mut settings.slave_address_1,
            hex(value).map(OwnAddress::Seven),
        ),
        "own2" => put(&mut settings.slave_address_2, masked(value)),
        _ => None,
    })
}

// `0` alone.
fn off(token: &str) -> Option<bool> {
    match token {
        "0" => Some(false),
        _ => None,
    }
}

fn seven_bits(token: &str) -> Option<OwnAddress> {
    Some(OwnAddress::Seven(u16::from(hex::<u8>(token)?)))
}

// `A8:M`, an address and a mask of 0 to 7.
fn masked(token: &str) -> Option<(u8, SlaveAddressMask)> {
    let (address, mask) = token.split_once(':')?;
    let mask = decimal::<u32>(mask).filter(|mask| *mask <= 7)?;
    Some((hex(address)?, SlaveAddressMask::from(mask)))
}
