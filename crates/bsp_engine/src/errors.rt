//! Why a document has no report.

ghost use Rattle.std.specs.Prelude.{◌≡◌};
ghost use Rattle.bsp_engine.specs.declared.errors.JobError.TheVariants.{OutOfMemory as RefusedMemory};
ghost use Rattle.bsp_engine.specs.Faults.{fault_line, exit_status};
ghost use Rattle.bsp_engine.specs.Inside.Refusal.{job_error_of};

use bsp_model::limits::MOST_DOCUMENT_BYTES;
use bsp_model::{InputFault, OutOfMemory};
use thiserror::Error;

/// Why a document is not a job: the first that holds, in this order (this profile).
#[derive(Clone, Copy, Debug, PartialEq, Eq, Error)]
pub enum JobFault {
    /// J1: the bytes are not a TOML document.
    #[error("the document is not TOML")]
    NotToml,
    /// J2: a key that each document needs is absent.
    #[error("a key that each document needs is missing")]
    MissingKey,
    /// J3: a known key has a value of another shape, as an edit of another word or length.
    #[error("a key has a value of a wrong shape")]
    WrongType,
    /// J4: another key stands at the top.
    #[error("a key is unknown")]
    UnknownKey,
    /// J5: no program has this name.
    #[error("no program has this name")]
    UnknownProgram,
    /// J6: a run may not start with the input, for this reason.
    #[error("the input is refused: {0}")]
    Input(InputFault),
    /// J7: a word, an argument or a number of an edit is negative.
    #[error("a word is negative")]
    BadWord,
}

/// Why a document was not read as a job.
#[derive(Clone, Copy, Debug, PartialEq, Eq, Error)]
pub enum JobError {
    #[error("the document is no job: {0}")]
    Fault(JobFault),
    #[error("memory was refused")]
    OutOfMemory,
}

impl From<OutOfMemory> for JobError {
    ghost from_gives = { λ _ e. e ≡ RefusedMemory };

    fn from(_error: OutOfMemory) -> JobError {
        JobError::OutOfMemory
    }
}

/// Why no report was written, or not all of it.
///
/// From `engine`, nothing was written but after `Write`. From `follow`, whole blocks may have been said.
#[derive(Clone, Copy, Debug, PartialEq, Eq, Error)]
pub enum EngineError {
    /// A read failed.
    #[error("a read failed")]
    Read,
    /// The document has more than `MOST_DOCUMENT_BYTES` bytes.
    #[error("a document has at most {most} bytes", most = MOST_DOCUMENT_BYTES)]
    TooLong,
    /// The document is not a job.
    #[error("the document is no job: {0}")]
    Job(JobFault),
    /// A write failed or took no byte. A beginning of the text was written.
    #[error("a write failed")]
    Write,
    /// Memory was refused.
    #[error("memory was refused")]
    OutOfMemory,
}

impl From<JobError> for EngineError {
    ghost from_gives = { λ e r. r ≡ job_error_of e };

    fn from(error: JobError) -> EngineError {
        match error {
            JobError::Fault(fault) => EngineError::Job(fault),
            JobError::OutOfMemory => EngineError::OutOfMemory,
        }
    }
}

impl EngineError {
    /// The fault line, without its LF.
    pub fn line(&self) -> &'static str
        ensures { result.now ≡ fault_line self.now }
    {
        match *self {
            EngineError::Read => "fault read",
            EngineError::TooLong => "fault long",
            EngineError::Job(JobFault::NotToml) => "fault J1",
            EngineError::Job(JobFault::MissingKey) => "fault J2",
            EngineError::Job(JobFault::WrongType) => "fault J3",
            EngineError::Job(JobFault::UnknownKey) => "fault J4",
            EngineError::Job(JobFault::UnknownProgram) => "fault J5",
            EngineError::Job(JobFault::Input(InputFault::NoProcess)) => "fault J6 I1",
            EngineError::Job(JobFault::Input(InputFault::TooMany)) => "fault J6 I2",
            EngineError::Job(JobFault::Input(InputFault::LengthsDiffer)) => "fault J6 I3",
            EngineError::Job(JobFault::Input(InputFault::MemoryTooLong)) => "fault J6 I4",
            EngineError::Job(JobFault::Input(InputFault::ArgsTooLong)) => "fault J6 I5",
            EngineError::Job(JobFault::Input(InputFault::BadLimit)) => "fault J6 I6",
            EngineError::Job(JobFault::Input(InputFault::BadPrice)) => "fault J6 I7",
            EngineError::Job(JobFault::BadWord) => "fault J7",
            EngineError::Write => "fault write",
            EngineError::OutOfMemory => "fault memory",
        }
    }

    /// The exit status: 1 where the machine failed, 3 where the document is refused.
    pub fn status(&self) -> u8
        ensures { result ≡ exit_status self.now }
    {
        match self {
            EngineError::Read | EngineError::Write | EngineError::OutOfMemory => 1,
            EngineError::TooLong | EngineError::Job(_) => 3,
        }
    }
}
