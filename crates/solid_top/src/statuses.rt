ghost use Rattle.std.specs.Prelude.{◌≡◌};
ghost use Rattle.solid_top.specs.Statuses.{status_number};

/// How a run ended.
#[derive(Clone, Copy, Debug, PartialEq, Eq)]
pub enum Status {
    /// The work was done and its text written.
    Done,
    /// The words are no command.
    Usage,
    /// The model was refused.
    Refused,
    /// Out of memory; nothing was written.
    Memory,
    /// A read failed; nothing was written.
    ReadFault,
    /// A write failed; a front of the text was written.
    WriteFault,
    /// The input has more than 2^25 bytes.
    TooLong,
}

impl Status {
    /// The exit status of the program.
    pub fn number(self) -> u8
        ensures { result ≡ status_number self }
    {
        match self {
            Status::Done => 0,
            Status::Usage => 2,
            Status::Refused => 3,
            Status::Memory => 4,
            Status::ReadFault => 5,
            Status::WriteFault => 6,
            Status::TooLong => 7,
        }
    }
}
