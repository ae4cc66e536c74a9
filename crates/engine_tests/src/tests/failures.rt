//! Readers and writers that fail.

use super::bundled::{Flow, STEADY, writes};
use bsp_engine::EngineError;
use bsp_gate::Open;
use std::alloc::Global;
use std::process::Abort;
use std::thread::Threads;

const DOCUMENT: &[u8] =
    b"program = \"broadcast\"\nlimit = 16\ng = 4\nl = 10\nmemory = [[7], [0], [0], [0]]\nargs = [[0], [0], [0], [0]]\nbatches = [[[\"word\", 2, 0, 9]]]\n";

const REPORT: &[u8] =
    b"run 0\nstatus halted\nmemory 0 7\nmemory 1 7\nmemory 2 7\nmemory 3 7\nprint 0 7\nprint 1 7\nprint 2 7\nprint 3 7\ncost 0 0 0 10\ncost 1 0 3 22\ncost 2 0 0 0\ntotal 32\nexecuted 12 redelivered 8\nrun 1\nstatus halted\nmemory 0 7\nmemory 1 7\nmemory 2 7\nmemory 3 7\nprint 0 7\nprint 1 7\nprint 2 7\nprint 3 7\ncost 0 0 0 10\ncost 1 0 3 22\ncost 2 0 0 0\ntotal 32\nexecuted 0 redelivered 2\n";

/// Finds that the document's report goes out so far, without or with a failure.
fn find<R: Threads + Sync + Abort>(
    rt: &R,
    alloc: Global,
    flow: Flow,
    written: &[u8],
    want: Result<(), EngineError>,
) {
    let writes = writes(rt, alloc, DOCUMENT, flow, written, want, 1, &Open);
    assert!(rt; writes, "{} reads, {} bytes", flow.reads_left, flow.room);
}

/// Bytes come one by one, a few at once, and all at once.
#[test]
fn the_report_of_a_document(rt: HostRuntime) {
    for i in 0..3 {
        let at_once = [1, 7, usize::MAX][i];
        find(&rt, rt.alloc(), Flow { at_once, ..STEADY }, REPORT, Ok(()));
    }
}

/// Four reads give bytes, and the fifth finds the end.
#[test]
fn each_failing_read(rt: HostRuntime) {
    for reads_left in 0..5 {
        let flow = Flow {
            reads_left,
            ..STEADY
        };
        find(&rt, rt.alloc(), flow, &[], Err(EngineError::Read));
    }
}

/// A write fails, or takes no byte.
#[test]
fn each_failing_write(rt: HostRuntime) {
    for room in 0..REPORT.len() {
        let flow = Flow { room, ..STEADY };
        let written = &REPORT[..room];
        find(&rt, rt.alloc(), flow, written, Err(EngineError::Write));
        let flow = Flow {
            takes_none: true,
            ..flow
        };
        find(&rt, rt.alloc(), flow, written, Err(EngineError::Write));
    }
}
