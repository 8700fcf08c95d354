// The statuses that a program ends with. The trusted core cites them.
ghost use Rattle.std.specs.Prelude.{◌≡◌};
ghost use Rattle.sd_outside.specs.Status.{status_number};

/// How a run of the program ended.
#[derive(Clone, Copy, Debug, PartialEq, Eq)]
pub enum Status {
    /// The whole answer was written.
    Done,
    /// The definition of the command refuses what it was given.
    Refused,
    /// The words are no command.
    Usage,
    /// A file could not be read.
    Unread,
    /// The answer could not be written.
    Unwritten,
    /// There was no memory.
    Memory,
    /// A policy, an order or a seed is not of its form.
    Unreadable,
}

impl Status {
    /// The exit status of the program.
    pub fn number(self) -> u8
        ensures { result ≡ status_number self }
    {
        match self {
            Status::Done => 0,
            Status::Refused => 1,
            Status::Usage => 2,
            Status::Unread => 3,
            Status::Unwritten => 4,
            Status::Memory => 5,
            Status::Unreadable => 6,
        }
    }
}
