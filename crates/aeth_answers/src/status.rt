// The statuses with which the program ends.

/// How a run of the program ended.
#[derive(Clone, Copy)]
pub enum Status {
    /// The job is done, and its text is on `out`.
    Done,
    /// The words are no command.
    Usage,
    /// A file breaks a rule.
    InputRefused,
    /// What the words ask for can't be granted.
    NotGranted,
    /// A file can't be read.
    ReadFault,
    /// A sink failed, and has a proper prefix of its text.
    WriteFault,
    /// Memory was wanting, and nothing was written.
    Memory,
}

impl Status {
    ghost use Rattle.aeth_answers.specs.Status.{status_number};
    ghost use Rattle.std.specs.Prelude.{◌≡◌};

    /// The number with which the program ends.
    pub fn number(self) -> u8
        ensures { result ≡ status_number self }
    {
        match self {
            Status::Done => 0,
            Status::Usage => 1,
            Status::InputRefused => 2,
            Status::NotGranted => 3,
            Status::ReadFault => 4,
            Status::WriteFault => 5,
            Status::Memory => 6,
        }
    }
}
