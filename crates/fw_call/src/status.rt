//! How a call ends, and the exit status of the process that it makes.

ghost use Rattle.std.specs.Prelude.{◌≡◌};
ghost use Rattle.std.specs.Process.{exit_status};
ghost use Rattle.fw_call.specs.Codes.{code_of};

use fw_rules::Which;
use fw_sched::InputFault;
use std::process::ExitCode;

/// How a call of the program ends.
#[derive(Debug, Drop)]
pub enum Status {
    /// The whole output was written.
    Ok,
    /// The words are no command.
    Usage,
    /// The source failed.
    ReadFault,
    /// The sink failed.
    WriteFault,
    /// The input is no document, or the deployment lacks the seat that the words name; this is the first part that is wrong.
    Input(InputFault),
    /// The input is longer than a document may be.
    TooLong,
    /// The input is a document whose schedule can't be replayed so far.
    Later,
    /// The run of the document's schedule would send too many frames, or too many bytes, at the step with this index.
    Limit { step: u32, which: Which },
    /// Memory ran out.
    Memory,
}

impl Status {
    /// The number of the exit status.
    pub fn code(&self) -> u8
        ensures { result ≡ code_of self.now }
    {
        match self {
            Status::Ok => 0,
            Status::Usage => 1,
            Status::ReadFault => 2,
            Status::WriteFault => 3,
            Status::Input(_) => 5,
            Status::TooLong => 6,
            Status::Limit { .. } => 9,
            Status::Memory => 10,
            Status::Later => 11,
        }
    }

    /// The exit status of the process.
    pub fn exit_code(&self) -> ExitCode
        ensures { exit_status result ≡ code_of self.now }
    {
        ExitCode::from(self.code())
    }
}
