//! The texts of errors, one of each type.

use bsp_engine::{EngineError, Failed, JobError, JobFault};
use bsp_incr::{EditError, EditFault, EditRefusal};
use bsp_model::{Fault, InputFault, SyncFault};
use bsp_run::RunError;
use bsp_step::Stop;
use bsp_table::TableFault;
use std::alloc::Global;
use std::error::Error;
use std::process::Abort;

fn find<E: Error>(rt: &impl Abort, alloc: Global, error: E, text: &str) {
    let said = format!(in alloc; "{error}");
    drop(error);
    assert!(rt; said.is_ok_and(|said| said.as_str() == text), "{text}");
}

const NO_WORD: EditRefusal = EditRefusal {
    place: 3,
    fault: EditFault::NoSuchWord,
};

#[test]
fn errors_of_runs_and_updates_are_told(rt: HostRuntime) {
    let alloc = rt.alloc();
    find(&rt, alloc, Fault::BadPid(9), "no process has the number 9");
    find(
        &rt,
        alloc,
        Stop::Fault(Fault::TooManyRequests),
        "the process has a fault: a process makes at most 1024 requests in a superstep",
    );
    find(
        &rt,
        alloc,
        SyncFault::MixedEnd,
        "some processes ended by sync, and some by halt",
    );
    find(
        &rt,
        alloc,
        TableFault::Sync(SyncFault::TooManySlots),
        "there is no next registration table: a registration table has at most 256 slots",
    );
    find(
        &rt,
        alloc,
        InputFault::MemoryTooLong,
        "a memory has at most 4096 words",
    );
    find(
        &rt,
        alloc,
        RunError::Input(InputFault::BadPrice),
        "the input is refused: a price is at most 1000000",
    );
    find(
        &rt,
        alloc,
        EditFault::BadLimit,
        "the superstep limit is 1 to 1024",
    );
    find(
        &rt,
        alloc,
        NO_WORD,
        "edit 3: the process has no word at this address",
    );
    find(
        &rt,
        alloc,
        EditError::Refused(NO_WORD),
        "the batch is refused: edit 3: the process has no word at this address",
    );
}

#[test]
fn errors_of_documents_are_told(rt: HostRuntime) {
    let alloc = rt.alloc();
    find(&rt, alloc, JobFault::UnknownKey, "a key is unknown");
    find(
        &rt,
        alloc,
        JobError::Fault(JobFault::Input(InputFault::NoProcess)),
        "the document is no job: the input is refused: a run has at least one process",
    );
    find(
        &rt,
        alloc,
        EngineError::Job(JobFault::NotToml),
        "the document is no job: the document is not TOML",
    );
    find(
        &rt,
        alloc,
        EngineError::TooLong,
        "a document has at most 16777216 bytes",
    );
    find(&rt, alloc, EngineError::OutOfMemory, "memory was refused");
    find(&rt, alloc, Failed, "a read or a write failed");
}
