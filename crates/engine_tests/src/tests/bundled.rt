//! The bundled programs as a catalogue, and the engine with it.

ghost use Rattle.std.specs.Prelude.{◌<◌, ◌≤◌};

use super::failing::{sink, source};
use bsp_engine::{ByName, Detail, EngineError, Named, Options, engine};
use bsp_gate::Gate;
use bsp_model::limits::MOST_WORKERS;
use bsp_programs::{Bundled, NAMES};
use std::alloc::Global;
use std::thread::Threads;

/// The bundled programs by their names.
pub struct BundledPrograms;

impl ByName for BundledPrograms {
    ghost use Rattle.bsp_programs.specs.Bundled.{program_named};

    type Program = Bundled;

    ghost named = { program_named };

    fn names() -> &'static str {
        NAMES
    }

    fn by_name(name: &str) -> Option<Bundled> {
        Bundled::by_name(name)
    }
}

/// The catalogue of the bundled programs.
pub type AllBundled = Named<BundledPrograms>;

/// How a document is read, and its report written.
#[derive(Clone, Copy)]
pub struct Flow {
    /// The most bytes of a read, and of a write.
    pub at_once: usize,
    /// How many reads are made before one fails.
    pub reads_left: usize,
    /// How many bytes are written before a write takes none, or fails.
    pub room: usize,
    pub takes_none: bool,
}

/// A flow that does not fail.
pub const STEADY: Flow = Flow {
    at_once: 40,
    reads_left: usize::MAX,
    room: usize::MAX,
    takes_none: false,
};

/// One worker, and whole blocks alone.
pub const ONE_WORKER: Options = Options {
    workers: 1,
    scratch: false,
    detail: Detail {
        places: false,
        changes: false,
        why: false,
        update_cost: false,
    },
    quiet: true,
};

/// Whether the engine with the bundled programs writes these bytes for a document, and ends so, after one failure where it ends by an error.
pub fn writes<R: Threads + Sync, G: Gate>(
    rt: &R,
    alloc: Global,
    document: &[u8],
    flow: Flow,
    written: &[u8],
    want: Result<(), EngineError>,
    workers: usize,
    gate: &G,
) -> bool
    requires { (0 < workers) × (workers ≤ MOST_WORKERS) }
{
    let mut reader = source(document, flow);
    let mut writer = sink(alloc, flow);
    let mut left = Vec::new(alloc);
    let options = Options {
        workers,
        ..ONE_WORKER
    };
    let done = engine::<AllBundled, _, _, _, _>(
        rt,
        alloc,
        options,
        &mut reader,
        &mut writer,
        &mut left,
        gate,
    );
    let failures = reader.failures.wrapping_add(writer.failures);
    let is_written = writer.bytes.as_slice() == written;
    drop(writer);
    done == want && is_written && failures == u64::from(want.is_err())
}
