// How a run ends, by a number.
ghost use Rattle.std.specs.Prelude.{◌≡◌};
ghost use Rattle.evidence_tool.specs.Status.{code_of};

/// How a run has ended. Where several would do, it is the first that happened.
#[derive(Clone, Copy, Debug, PartialEq, Eq)]
pub enum Status {
    /// None of those below.
    Done,
    /// Exactly where the words are those of no command.
    BadWords,
    /// Only where the source has failed.
    ReadFault,
    /// Only where the sink has failed.
    WriteFault,
    /// Only where the disk of the journal has failed.
    DiskFault,
    /// Exactly where there is no journal; for `create` where one with an entry is there.
    NoJournal,
    /// Exactly where the journal is damaged, or an entry is none or not legal after those before it.
    Damaged,
    /// Exactly where the input has more than 67,108,864 bytes.
    TooLong,
    /// There was no memory.
    NoMemory,
    /// Exactly where the input is no list of requests; for `verify` where it or its policy is not of its form.
    BadInput,
    /// `verify` found that a time-stamp lapsed.
    Lapsed,
    /// `verify` found another verdict than that the record is valid.
    NotValid,
}

impl Status {
    /// The number that the program ends with.
    pub fn code(self) -> u8
        ensures { result ≡ code_of self }
    {
        match self {
            Status::Done => 0,
            Status::BadWords => 2,
            Status::ReadFault => 3,
            Status::WriteFault => 4,
            Status::DiskFault => 5,
            Status::NoJournal => 6,
            Status::Damaged => 7,
            Status::TooLong => 8,
            Status::NoMemory => 9,
            Status::BadInput => 10,
            Status::Lapsed => 20,
            Status::NotValid => 21,
        }
    }
}
