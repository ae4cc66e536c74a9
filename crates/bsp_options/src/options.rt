//! The words of the command line.

ghost use Rattle.std.specs.Prelude.{◌≡◌, ◌≢◌, ◌≤◌, ◌||◌, IfOk, IfErr, codes, true, false, map, option_map};
ghost use Rattle.clap.specs.Words.{FailsBy, app_of, fault_of, first_of, found_of, kind_of, matches_of, new_app, one_text, rows_of, rule_of, takes, with_rule};
ghost use Rattle.bsp_options.specs.Options.{detail_of, flag_rule, follow_rule, is_given, options_of, scratch_rule, tool_app, with_details, with_version, workers_of, workers_rule};
ghost use Rattle.bsp_options.specs.Inside.Options.{number_or_1};

use bsp_model::limits::MOST_WORKERS;
use clap::error::ErrorKind;
use clap::{Arg, ArgAction, ArgMatches, Command, Error, value_parser};
use std::alloc::{AllocError, Global};

/// The version of every tool: of the options, the document and the report.
pub const VERSION: &str = "0.1.0";

/// What the blocks of a report tell.
#[derive(Clone, Copy)]
pub struct Detail {
    /// Whether they list the places of turns and deliveries.
    pub places: bool,
    /// Whether each block after the first tells its changes against the last block with a status before it.
    pub changes: bool,
    /// Whether they tell of each place why its turn was taken or its delivery made again.
    pub why: bool,
    /// Whether they tell the cost of each update.
    pub update_cost: bool,
}

/// What the words ask for.
#[derive(Clone, Copy)]
pub struct Options {
    /// The number of workers that share the work, 1 to `MOST_WORKERS`.
    pub workers: usize,
    /// Whether each input is run from its first superstep, and no record is kept.
    pub scratch: bool,
    /// What the report tells.
    pub detail: Detail,
    /// Whether long work shows no progress.
    pub quiet: bool,
}

/// A tool: how its command line is called, and what the help tells. The options are those of every tool.
#[derive(Clone, Copy)]
pub struct Tool {
    pub name: &'static str,
    /// What the tool does, in a line.
    pub about: &'static str,
    /// What the help says below the options: `after_help!` of the tool's keys and an example.
    pub after_help: &'static str,
}

const WORKERS_HELP: &str = "Number of workers that share the work, 1 to 16";

// The most workers have to be as many as the help says.
const _: () = prove!(MOST_WORKERS == 16);

const SCRATCH_HELP: &str = "Runs each input from its first superstep, and reuses nothing";

const PLACES_HELP: &str = "Lists the places of turns and deliveries, by superstep and process";

const CHANGES_HELP: &str =
    "Reports each run after the first as its changes against the previous run";

const WHY_HELP: &str = "Lists the places too, and why each turn and delivery was made again";

const UPDATE_COST_HELP: &str = "Reports the cost of each update, superstep by superstep";

const QUIET_HELP: &str = "Shows no progress on a terminal";

fn workers_arg<'a>(alloc: Global) -> Arg<'a>
    ensures own { result.global ≡ false }
    ensures rule { rule_of result ≡ workers_rule }
{
    Arg::new(alloc, "workers")
        .long("workers")
        .value_name("N")
        .help(WORKERS_HELP)
        .value_parser(value_parser!(u8).range(1..=MOST_WORKERS as i64))
        .default_value("1")
}

fn flag_arg<'a>(alloc: Global, name: &'a str, help: &'a str) -> Arg<'a>
    ensures own { result.global ≡ false }
    ensures rule { rule_of result ≡ flag_rule name.now }
{
    Arg::new(alloc, name)
        .long(name)
        .help(help)
        .action(ArgAction::SetTrue)
}

fn follow_arg<'a>(alloc: Global) -> Arg<'a>
    ensures own { result.global ≡ false }
    ensures rule { rule_of result ≡ follow_rule }
{
    Arg::new(alloc, "follow")
        .long("follow")
        .value_name("FILE")
        .help("Reads the document from FILE, then answers each line of standard input as it comes")
}

fn command<'a>(alloc: Global, tool: &Tool) -> Result<Command<'a>, AllocError>
    ensures { IfOk result (λ c. app_of c ≡ tool_app tool.now.name.now) }
{
    Command::new(alloc, tool.name)
        .version(VERSION)
        .about(tool.about)
        .after_help(tool.after_help)
        .arg(workers_arg(alloc))?
        .arg(flag_arg(alloc, "scratch", SCRATCH_HELP))?
        .arg(flag_arg(alloc, "places", PLACES_HELP))?
        .arg(flag_arg(alloc, "changes", CHANGES_HELP))?
        .arg(flag_arg(alloc, "why", WHY_HELP))?
        .arg(flag_arg(alloc, "update-cost", UPDATE_COST_HELP))?
        .arg(follow_arg(alloc))?
        .arg(flag_arg(alloc, "quiet", QUIET_HELP))
}

fn number_or_1(number: Option<u8>) -> usize
    ensures { result ≡ number_or_1 number }
{
    let workers = usize::from(number.unwrap_or(1));
    if 1 <= workers && workers <= MOST_WORKERS {
        workers
    } else {
        1
    }
}

fn is_given(matches: &ArgMatches<'_>, flag: &str) -> bool
    ensures { result ≡ is_given (one_text (found_of matches.now) flag.now) }
{
    matches.get_one::<bool>(flag).unwrap_or(false)
}

fn detail_in(matches: &ArgMatches<'_>) -> Detail
    ensures { result ≡ detail_of (rows_of (found_of matches.now)) }
{
    let why = is_given(matches, "why");
    Detail {
        places: is_given(matches, "places") | why,
        changes: is_given(matches, "changes"),
        why,
        update_cost: is_given(matches, "update-cost"),
    }
}

fn options_in(matches: &ArgMatches<'_>) -> Options
    ensures { result ≡ options_of (rows_of (found_of matches.now)) }
{
    Options {
        workers: number_or_1(matches.get_one::<u8>("workers")),
        scratch: is_given(matches, "scratch"),
        detail: detail_in(matches),
        quiet: is_given(matches, "quiet"),
    }
}

fn read_matches<'a>(
    alloc: Global,
    tool: &Tool,
    words: &'a [&'a str],
) -> Result<ArgMatches<'a>, Error>
    ensures rows { IfOk result (λ m. rows_of (found_of m) ≡ matches_of (tool_app tool.now.name.now) (map
        (λ w. w.now) words.entry.now)) }
    ensures refused { IfErr result (λ e. takes (tool_app tool.now.name.now) (map (λ w. w.now) words.entry.now) ≡ true
        → kind_of e ≡ ErrorKind.OutOfMemory) }
    ensures kinds { FailsBy (fault_of (tool_app tool.now.name.now) (map (λ w. w.now) words.entry.now)) result }
{
    command(alloc, tool)?.try_get_matches_from(words)
}

/// What the words ask for, and the file that is to be followed, if there is one; the first word is the program's name. Words that the tool's
/// options take are refused for want of memory alone. Others are refused by an error of the kind that `clap`'s definition gives them; `--help` and
/// `--version` are such refusals.
pub fn read_options<'a>(
    alloc: Global,
    tool: &Tool,
    words: &'a [&'a str],
) -> Result<(Options, Option<&'a str>), Error>
    ensures options { IfOk result (λ r. r.0 ≡ options_of (matches_of (tool_app tool.now.name.now) (map
        (λ w. w.now) words.entry.now))) }
    ensures follow { IfOk result (λ r. option_map (λ s. s.now) r.1
        ≡ first_of (codes "follow") (matches_of (tool_app tool.now.name.now) (map (λ w. w.now) words.entry.now))) }
    ensures least { IfOk result (λ r. 1 ≤ r.0.workers) }
    ensures most { IfOk result (λ r. r.0.workers ≤ MOST_WORKERS) }
    ensures refused { IfErr result (λ e. takes (tool_app tool.now.name.now) (map (λ w. w.now) words.entry.now) ≡ true
        → kind_of e ≡ ErrorKind.OutOfMemory) }
    ensures kinds { FailsBy (fault_of (tool_app tool.now.name.now) (map (λ w. w.now) words.entry.now)) result }
{
    let matches = read_matches(alloc, tool, words)?;
    let read = (options_in(&matches), matches.get_str("follow"));
    drop(matches);
    Ok(read)
}

/// The exit status where the words were refused: 0 where that is the help or the version, 1 where memory was refused, else 2. It takes no memory.
pub fn words_status(error: &Error) -> u8
    ensures help { kind_of error.now ≡ ErrorKind.DisplayHelp → result ≡ 0 }
    ensures version { kind_of error.now ≡ ErrorKind.DisplayVersion → result ≡ 0 }
    ensures memory { kind_of error.now ≡ ErrorKind.OutOfMemory → result ≡ 1 }
    ensures refused { kind_of error.now ≢ ErrorKind.DisplayHelp → kind_of error.now ≢ ErrorKind.DisplayVersion
        → kind_of error.now ≢ ErrorKind.OutOfMemory → result ≡ 2 }
{
    match error.kind() {
        ErrorKind::DisplayHelp | ErrorKind::DisplayVersion => 0,
        ErrorKind::OutOfMemory => 1,
        _ => 2,
    }
}
