// The phases that a blocking call goes through.
// A phase holds the word that it must remember. It is data and no closure, since C keeps a parked call as numbers.

ghost use Rattle.std.specs.Prelude.{◌≡◌};
ghost use Rattle.parked.specs.Phases.{count_effect};

// The accesses before the first wait.
#[derive(Clone, Copy, Debug, PartialEq, Eq)]
pub enum Opening {
    // Reads CR2 until START is clear.
    Start,
    // Reads RXDR and drops the byte, before `read` sets up.
    Drain,
    // The two accesses of a `modify` of CR2: the read, and the write with the word that was read.
    Modify,
    Setup(u32),
    // Writes TXE to ISR, which empties TXDR.
    Flush,
    // Clears ADDR, which releases the clock.
    Release,
    // `flush_rxdr`: reads ISR, and where RXNE is set RXDR.
    Probe,
    Drop,
}

// Why no access follows. A word or room that is missing parks the call, the others end it. C keeps each by a number of its own.
#[derive(Clone, Copy, Debug, PartialEq, Eq)]
pub enum End {
    OutOfWords,
    LogFull,
    BadLength,
    Berr,
    Arlo,
    Addr,
    Stopf,
    // `slave_wait_addressed`, with the second ISR word.
    Addressed(u32),
}

#[derive(Clone, Copy, Debug, PartialEq, Eq)]
pub enum Phase {
    Open(Opening),
    // `busy_wait` reads ISR.
    Wait,
    // The wanted flag was found: the byte goes out or comes in.
    Transfer,
    // TC was found: CR2 is written with the second START.
    Restart,
    // TCR was found: a `modify` of CR2, so that the next byte is not acknowledged.
    TcrFound,
    NackNextByte(u32),
    // The flag is cleared in ICR.
    ClearBerr,
    ClearArlo,
    ClearNackf,
    ClearStopf,
    // `flush_txdr`, at STOPF: reads ISR, and where TXIS is set writes 0 to TXDR;
    FlushTxis,
    FlushDummy,
    // reads ISR again, and where TXE is set writes it.
    FlushTxe,
    FlushEmpty,
    // `slave_wait_addressed`: reads ISR until ADDR is set, then once more.
    Listen,
    Code,
    // No access follows.
    Ended(End),
}

// What an access does to the count. `NoAccess` is a case like the others: the definitions of a step ask for each by its name.
#[derive(Clone, Copy, Debug, PartialEq, Eq)]
pub enum CountEffect {
    // A byte goes out or comes in.
    Byte,
    // A second half begins.
    SecondHalf,
    Unchanged,
    // There is none.
    NoAccess,
}

impl Phase {
    pub(crate) fn count_effect(self) -> CountEffect
        ensures { result ≡ count_effect self }
    {
        match self {
            Phase::Transfer => CountEffect::Byte,
            Phase::Restart => CountEffect::SecondHalf,
            Phase::Ended(_) => CountEffect::NoAccess,
            _ => CountEffect::Unchanged,
        }
    }
}
