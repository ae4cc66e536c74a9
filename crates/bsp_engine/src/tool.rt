//! A whole tool: its command line, standard input, standard output and exit status.
//!
//! Where there is no report, a fault line goes to standard error, and the exit status is 1 (the machine failed), 2 (the command line is refused)
//! or 3 (the document is refused). Where the document has a fault, or the file can't be read, a second line says more, unless memory for it is refused.

ghost use Rattle.std.specs.Prelude.{◌<◌, ◌≤◌};

use crate::catalogue::Catalogue;
use crate::documents::{engine, follow};
use crate::errors::EngineError;
use crate::explain::{explain, explain_file};
use crate::help_text::{FaultsHelp, NamedLimits};
use crate::progress::{Progress, Watched};
use crate::terminal::{Console, Counted};
use bsp_gate::Gate;
use bsp_model::limits::MOST_WORKERS;
use bsp_options::{Options, Tool, read_options, words_status};
use clap::error::ErrorKind;
use std::alloc::Global;
use std::env::Env;
use std::process::ExitCode;
use std::rt::Files;
use std::thread::Threads;
use std::time::Clock;
use std::{env, fs, io};

fn failed<R: Eprint>(rt: &R, error: EngineError) -> ExitCode {
    let _ = eprintln!(rt; "{}", error.line());
    ExitCode::from(error.status())
}

/// Says why no words could be read: memory was refused, or one of them is not UTF-8.
fn unread<R: Eprint>(rt: &R, error: &io::Error) -> ExitCode {
    if error.kind() == io::ErrorKind::OutOfMemory {
        return failed(rt, EngineError::OutOfMemory);
    }
    let _ = eprintln!(rt; "error: {error}");
    ExitCode::from(2)
}

/// Prints the text of the refusal, and behind the help and the version what they say of the limits.
fn print_refusal<R: Print + Eprint>(rt: &R, error: &clap::Error) -> io::Result<()> {
    error.print(rt)?;
    match error.kind() {
        ErrorKind::DisplayHelp => print!(rt; "{FaultsHelp}"),
        ErrorKind::DisplayVersion => print!(rt; "{NamedLimits}"),
        _ => Ok(()),
    }
}

/// Says why the words were refused, or what the help or the version says. Help that can't be written is a failed write, as of a report.
fn refused<R: Print + Eprint>(rt: &R, error: &clap::Error) -> ExitCode {
    let status = words_status(error);
    if status == 1 {
        return failed(rt, EngineError::OutOfMemory);
    }
    let printed = print_refusal(rt, error);
    if status == 0 && printed.is_err() {
        return failed(rt, EngineError::Write);
    }
    ExitCode::from(status)
}

/// The exit status of a job that was run, or that failed. Of a document with a fault standard error says more.
fn ended<C: Catalogue, R: Alloc<A = Global> + Eprint>(
    rt: &R,
    outcome: Result<(), EngineError>,
    document: &[u8],
) -> ExitCode {
    let Err(error) = outcome else {
        return ExitCode::SUCCESS;
    };
    let status = failed(rt, error);
    if matches!(error, EngineError::Job(_)) {
        explain::<C, R>(rt, document);
    }
    status
}

/// Runs the job of the document in a file, and then answers each line of standard input. Whether the file can't be read is told too.
fn follow_file<
    C: Catalogue,
    R: Alloc<A = Global> + Files + Input + Print + Eprint + Threads + Clock + Sync,
>(
    rt: &R,
    options: Options,
    path: &str,
    document: &mut Vec<u8>,
    progress: &Progress<'_, R>,
) -> (Result<(), EngineError>, bool)
    requires workers { (0 < options.workers) × (options.workers ≤ MOST_WORKERS) }
{
    let Ok(file) = fs::open(rt, path) else {
        return (Err(EngineError::Read), true);
    };
    let mut source = Counted::new(file);
    let mut terminal = Console::new(rt, rt.reader(), io::writer(rt));
    let outcome = follow::<C, R, _, _, _>(
        rt,
        rt.alloc(),
        options,
        &mut source,
        &mut terminal,
        document,
        progress,
    );
    (outcome, source.has_failed())
}

/// Runs a job, shows its progress, and says why there is no report where that is so.
fn run_shown<
    C: Catalogue,
    R: Env + Alloc<A = Global> + Files + Input + Print + Eprint + Watched + Threads + Clock + Sync,
>(rt: &R, options: Options, path: Option<&str>) -> ExitCode
    requires workers { (0 < options.workers) × (options.workers ≤ MOST_WORKERS) }
{
    let progress = Progress::new(rt, !options.quiet && rt.is_watched());
    let mut document = Vec::new(rt.alloc());
    let (outcome, is_unread) = match path {
        None => {
            let told = engine::<C, R, _, _, _>(
                rt,
                rt.alloc(),
                options,
                &mut Counted::new(rt.reader()),
                &mut Counted::new(io::writer(rt)),
                &mut document,
                &progress,
            );
            (told, false)
        }
        Some(path) => follow_file::<C, R>(rt, options, path, &mut document, &progress),
    };
    progress.leave();
    let status = ended::<C, R>(rt, outcome, document.as_slice());
    if is_unread {
        explain_file(rt, path.unwrap_or(""));
    }
    status
}

/// An option that asks of a session for more than a run from scratch has, if one was given.
fn option_of_sessions(options: Options, path: Option<&str>) -> Option<&'static str> {
    if path.is_some() {
        Some("--follow <FILE>")
    } else if options.detail.why {
        Some("--why")
    } else if options.detail.update_cost {
        Some("--update-cost")
    } else {
        None
    }
}

/// Does what the words ask for, unless the options do not go together; the first word is the program's name.
fn run_words<
    C: Catalogue,
    R: Env + Alloc<A = Global> + Files + Input + Print + Eprint + Watched + Threads + Clock + Sync,
>(rt: &R, tool: &Tool, words: &[String]) -> ExitCode {
    let mut texts = Vec::new(rt.alloc());
    for word in words {
        if texts.push(word.as_str()).is_err() {
            return failed(rt, EngineError::OutOfMemory);
        }
    }
    let (options, path) = match read_options(rt.alloc(), tool, texts.as_slice()) {
        Ok(read) => read,
        Err(error) => return refused(rt, &error),
    };
    match option_of_sessions(options, path) {
        Some(option) if options.scratch => {
            let _ = eprintln!(rt; "error: the argument '{option}' cannot be used with '--scratch'");
            ExitCode::from(2)
        }
        _ => run_shown::<C, R>(rt, options, path),
    }
}

fn given_words<R: Env + Alloc<A = Global>>(rt: &R) -> io::Result<Vec<String>> {
    Ok(env::args(rt)?.collect(rt.alloc())?)
}

/// All that a tool does: it reads the words of its command line, and then runs the job of the document on standard input, of which the report
/// goes to standard output; or that of a file, and then answers each line of standard input. The `main` of a tool hands on its runtime, and what
/// this answers.
pub fn run_tool<
    C: Catalogue,
    R: Env + Alloc<A = Global> + Files + Input + Print + Eprint + Watched + Threads + Clock + Sync,
>(rt: &R, tool: &Tool) -> ExitCode {
    match given_words(rt) {
        Ok(words) => run_words::<C, R>(rt, tool, words.as_slice()),
        Err(error) => unread(rt, &error),
    }
}
