//! Live sessions at a terminal that keeps its log.

use super::bundled::{AllBundled, ONE_WORKER, STEADY};
use super::failing::source;
use super::logged::LoggedTerminal;
use bsp_engine::{EngineError, follow};
use bsp_gate::Open;
use std::alloc::Global;
use std::process::Abort;
use std::thread::Threads;

const DOCUMENT: &[u8] =
    b"program = \"broadcast\"\nlimit = 16\ng = 4\nl = 10\nmemory = [[7], [0]]\nargs = [[0], [0]]\n";

/// The report of the document, the block after the root's word became 8, and what is said later.
macro_rules! changed_and {
    ($later:literal) => {
        concat!(
            "run 0
status halted
memory 0 7
memory 1 7
print 0 7
print 1 7
cost 0 0 0 10
cost 1 0 1 14
cost 2 0 0 0
total 24
executed 6 redelivered 4
ready
run 1
status halted
memory 0 8
memory 1 8
print 0 8
print 1 8
cost 0 0 0 10
cost 1 0 1 14
cost 2 0 0 0
total 24
executed 3 redelivered 3
",
            $later
        )
    };
}

/// Finds that a text is said where the document is followed and these lines are heard, in pieces of 7 bytes.
fn find<R: Threads + Sync + Abort>(
    rt: &R,
    alloc: Global,
    lines: &[u8],
    hears_left: usize,
    said: &str,
    want: Result<(), EngineError>,
) {
    let mut document = Vec::new(alloc);
    let mut terminal = LoggedTerminal::new(alloc, lines, 7, hears_left);
    let done = follow::<AllBundled, _, _, _, _>(
        rt,
        alloc,
        ONE_WORKER,
        &mut source(DOCUMENT, STEADY),
        &mut terminal,
        &mut document,
        &Open,
    );
    assert!(rt; done == want && terminal.has_said(said.as_bytes()));
}

/// A batch, whose line ends in the third piece, and `undo`.
const UNDONE: &[u8] = b"[[\"word\", 0, 0, 8]]\nundo\n";

const SAID_WITH_UNDO: &str = changed_and!(
    "run 2
status halted
memory 0 7
memory 1 7
print 0 7
print 1 7
cost 0 0 0 10
cost 1 0 1 14
cost 2 0 0 0
total 24
executed 3 redelivered 3
"
);

/// The batch is taken back, a line after it is not read, or a read fails before that line has ended.
#[test]
fn a_batch_and_a_line_after_it(rt: HostRuntime) {
    find(&rt, rt.alloc(), UNDONE, usize::MAX, SAID_WITH_UNDO, Ok(()));
    let lines = b"[[\"word\", 0, 0, 8]]\nhalt";
    let said = changed_and!("run 2\nunread J1\n");
    find(&rt, rt.alloc(), lines, usize::MAX, said, Ok(()));
    let said = changed_and!("");
    find(&rt, rt.alloc(), UNDONE, 3, said, Err(EngineError::Read));
}

/// How many live sessions are opened and let go one after the other.
const SESSIONS: usize = 1_000;

/// `ci/count_allocations` compares the memory and the threads of the process at the lines `begin` and `end`. By `begin` there was one session.
#[test]
fn a_thousand_live_sessions_leave_nothing(rt: HostRuntime) {
    let alloc = rt.alloc();
    find(&rt, alloc, UNDONE, usize::MAX, SAID_WITH_UNDO, Ok(()));
    assert!(rt; println!(rt; "begin").is_ok());
    for _session in 0..SESSIONS {
        find(&rt, alloc, UNDONE, usize::MAX, SAID_WITH_UNDO, Ok(()));
    }
    assert!(rt; println!(rt; "end").is_ok());
}
