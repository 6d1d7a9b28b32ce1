/// How a run of the program ended; the exit status is the number.
#[derive(Clone, Copy, Debug, PartialEq, Eq)]
pub enum Status {
    Done = 0,
    /// The words are no accepted form.
    Usage = 1,
    /// A read failed.
    ReadFault = 2,
    /// The files are refused; the line that was written says why.
    Refused = 3,
    /// A write failed.
    WriteFault = 4,
    /// An allocation was refused.
    Memory = 5,
}

impl Status {
    ghost use Rattle.std.specs.Prelude.{◌≡◌};
    ghost use Rattle.lu_base.specs.Exit.{exit_code};

    /// The exit status of the process.
    pub fn code(self) -> u8
        ensures { result ≡ exit_code self }
    {
        self as u8
    }
}
