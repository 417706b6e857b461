// The answers of a call.

ghost use Rattle.std.specs.Prelude.{◌≡◌, [], ◌∷◌, get_or};
ghost use Rattle.registers.specs.Answers.{said, answer_of};

// Who sends, in the order of document 01's numbers 0 and 1.
#[derive(Clone, Copy, Debug, PartialEq, Eq)]
pub enum I2cDirection {
    MasterReadSlaveWrite,
    MasterWriteSlaveRead,
}

// Why nothing, or nothing more, is done: the answers 6 to 12.
#[derive(Clone, Copy, Debug, PartialEq, Eq)]
pub enum Refusal {
    BadLength,
    NoRate,
    BadFilter,
    OutOfWords,
    LogFull,
    WrongCall,
    ImpossibleLink,
}

#[derive(Clone, Copy, Debug, PartialEq, Eq)]
pub enum Answer {
    Done,
    // Nothing to do yet, or more to come.
    Pending,
    Nack,
    BusError,
    ArbitrationLost,
    // How many bytes went before the frame ended.
    IncorrectFrameSize(usize),
    // From here to 12 by their own names, and no `Refusal` inside: a start that read CR2 answers 6, and a run that made accesses 9 or 10, which
    // refuse nothing.
    BadLength,
    NoRate,
    BadFilter,
    OutOfWords,
    LogFull,
    WrongCall,
    ImpossibleLink,
    // A transfer ended, with so many bytes at the front of the link's buffer.
    Data {
        address: u16,
        direction: I2cDirection,
        count: usize,
    },
    // A master addressed this slave.
    Addressed {
        address: u16,
        direction: I2cDirection,
    },
    // What a getter answers: the error count, the address, how many bytes are shown.
    Errors(u32),
    Address(u16),
    Bytes(usize),
}

// Document 01 has one list of answers, the refusals among them, so `Answer` names each and this table joins the two.
impl From<Refusal> for Answer {
    ghost from_gives = { λ refusal answer. answer ≡ answer_of refusal };

    fn from(refusal: Refusal) -> Answer {
        match refusal {
            Refusal::BadLength => Answer::BadLength,
            Refusal::NoRate => Answer::NoRate,
            Refusal::BadFilter => Answer::BadFilter,
            Refusal::OutOfWords => Answer::OutOfWords,
            Refusal::LogFull => Answer::LogFull,
            Refusal::WrongCall => Answer::WrongCall,
            Refusal::ImpossibleLink => Answer::ImpossibleLink,
        }
    }
}

impl Answer {
    // The answer's number; for an answer that is printed with a letter the letter's code. They are document 01's, which no order of the
    // cases gives, since some hold values.
    pub fn number(self) -> u32
        ensures { result ≡ (said self).number }
    {
        match self {
            Answer::Done => 0,
            Answer::Pending => 1,
            Answer::Nack => 2,
            Answer::BusError => 3,
            Answer::ArbitrationLost => 4,
            Answer::IncorrectFrameSize(_) => 5,
            Answer::BadLength => 6,
            Answer::NoRate => 7,
            Answer::BadFilter => 8,
            Answer::OutOfWords => 9,
            Answer::LogFull => 10,
            Answer::WrongCall => 11,
            Answer::ImpossibleLink => 12,
            Answer::Data { .. } => 0x44,
            Answer::Addressed { .. } => 0x41,
            Answer::Errors(_) => 0x45,
            Answer::Address(_) => 0x4E,
            Answer::Bytes(_) => 0x47,
        }
    }

    // Its values, as document 01 lists them; 0 where it has fewer than three.
    pub fn values(self) -> [u64; 3]
        ensures { result ≡ get_or (said self).values 0 0 ∷ get_or (said self).values 1 0 ∷ get_or (said self).values 2 0 ∷ [] }
    {
        match self {
            Answer::IncorrectFrameSize(count) | Answer::Bytes(count) => [count as u64, 0, 0],
            Answer::Data {
                address,
                direction,
                count,
            } => [address as u64, direction as u64, count as u64],
            Answer::Addressed { address, direction } => [address as u64, direction as u64, 0],
            Answer::Errors(count) => [count as u64, 0, 0],
            Answer::Address(address) => [address as u64, 0, 0],
            Answer::Done
            | Answer::Pending
            | Answer::Nack
            | Answer::BusError
            | Answer::ArbitrationLost
            | Answer::BadLength
            | Answer::NoRate
            | Answer::BadFilter
            | Answer::OutOfWords
            | Answer::LogFull
            | Answer::WrongCall
            | Answer::ImpossibleLink => [0; 3],
        }
    }
}
