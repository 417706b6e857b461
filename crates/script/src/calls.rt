// The calls of a script, each with what its line gives.

use crate::settings::Settings;
use crate::text::bytes::Bytes;
use registers::isr::Event;

#[derive(Clone, Copy, Debug, PartialEq, Eq)]
pub enum Call<'a> {
    Link(LinkCall<'a>),
    Waiting(WaitingCall<'a>),
    Unwaited(UnwaitedCall),
    Config(ConfigCall),
}

// The calls of the non-blocking driver, and what is done to its link.
#[derive(Clone, Copy, Debug, PartialEq, Eq)]
pub enum LinkCall<'a> {
    Reset,
    Set(LinkValues<'a>),
    New(Construction),
    MasterWrite {
        address: u16,
        bytes: Bytes<'a>,
    },
    MasterWriteRead {
        address: u16,
        bytes: Bytes<'a>,
        read_len: u8,
    },
    MasterRead {
        address: u16,
        read_len: u8,
    },
    SlaveWrite(Bytes<'a>),
    Check,
    Watchdog,
    Errors,
    MasterData,
    SlaveData,
    Address,
    Listen,
    Unlisten,
    SlaveSbc(bool),
    SetAddress(u16),
}

// What a constructor is given, and `cfg timing`: the clock, and the settings of the configuration.
#[derive(Clone, Copy, Debug, PartialEq, Eq)]
pub struct Construction {
    pub clock: u32,
    pub settings: Settings,
}

// The values that `nb set` puts into the link.
#[derive(Clone, Copy, Debug, Default, PartialEq, Eq)]
pub struct LinkValues<'a> {
    pub address: Option<u16>,
    pub watchdog: Option<u16>,
    pub index: Option<usize>,
    pub length: Option<usize>,
    pub errors: Option<u32>,
    pub length_write_read: Option<usize>,
    pub data: Option<Bytes<'a>>,
}

// The calls of the blocking driver that wait. A resumed one keeps the slices that the line does not give.
#[derive(Clone, Copy, Debug, PartialEq, Eq)]
pub enum WaitingCall<'a> {
    Write {
        address: u8,
        send: Bytes<'a>,
    },
    Read {
        address: u8,
        recv: Bytes<'a>,
    },
    WriteRead {
        address: u8,
        send: Bytes<'a>,
        recv: Bytes<'a>,
    },
    SlaveWrite(Bytes<'a>),
    SlaveRead(Bytes<'a>),
    SlaveWaitAddressed,
    Resume(Slices<'a>),
}

// The slices that a line gives for a call that is resumed.
#[derive(Clone, Copy, Debug, Default, PartialEq, Eq)]
pub struct Slices<'a> {
    pub send: Option<Bytes<'a>>,
    pub recv: Option<Bytes<'a>>,
}

// The calls of the blocking driver that never wait.
#[derive(Clone, Copy, Debug, PartialEq, Eq)]
pub enum UnwaitedCall {
    New(Construction),
    SlaveAddressed,
    SlaveSbc(bool),
    Listen(Event),
    Unlisten(Event),
    ClearIrq(Event),
}

// The calls of the configuration.
#[derive(Clone, Copy, Debug, PartialEq, Eq)]
pub enum ConfigCall {
    Timing(Construction),
    Filter(u8),
    Period(u32),
}
