//! What the help and the version of a tool say besides their own text: the faults with the limits, and limits that are not this profile's.

use bsp_model::limits::{
    HIGHEST_PRICE, MOST_ARGUMENTS, MOST_DOCUMENT_BYTES, MOST_LINE_WORDS, MOST_LINES,
    MOST_MEMORY_WORDS, MOST_PAYLOAD_WORDS, MOST_PROCESSES, MOST_REQUESTS, MOST_SLOTS,
    MOST_SUPERSTEPS, MOST_TAG_WORDS, MOST_WORK, MOST_WORKERS, NAME,
};
use std::fmt;
use std::fmt::{Display, Formatter};

/// What the help of a tool says below the options, up to the faults. Given are what it says of the tool's own keys of a document, what it says after
/// the other keys (nothing, or lines that begin with an empty one), and an example.
#[macro_export]
macro_rules! after_help {
    ($keys:literal, $notes:literal, $example:literal) => {
        concat!(
            "\
It reads a TOML document from standard input, and writes a report to standard output: for the input, and
for each batch, the memories at the end, the printed lines and the costs. With --follow the document is
read from a file, and its report ends with a line `ready`. Then each line of standard input is a batch, or
`undo`, which takes the last batch back, and is answered by a block of its own before more is read. The
line `document` is answered by the input as a document, `view S P` by what process P saw in superstep S,
`turn S P` by what its turn left, and `help` by the lines that there are.

Keys of the document:
",
            $keys,
            "
  limit, g, l  the most supersteps, the price of a word, the price of a synchronisation
  memory       an array of words for each process
  args         an array of arguments for each process (may be left out)
  batches      batches of edits [\"word\", pid, addr, value], [\"arg\", pid, index, value],
               [\"limit\", n], [\"prices\", g, l] (may be left out)
",
            $notes,
            "
Example:
",
            $example
        )
    };
}

/// A number in groups of three digits, as 12,345.
struct Grouped(u64);

/// What stands before the last three digits of a number, group by group.
static UNITS: [u64; 6] = [
    1_000_000_000_000_000_000,
    1_000_000_000_000_000,
    1_000_000_000_000,
    1_000_000_000,
    1_000_000,
    1_000,
];

impl Display for Grouped {
    fn fmt<W: fmt::Write>(&self, f: &mut Formatter<W>) -> fmt::Result {
        let mut has_begun = false;
        for unit in &UNITS {
            let group = self.0 / *unit % 1_000;
            if has_begun {
                write!(f, "{group:03},")?;
            } else if group > 0 {
                write!(f, "{group},")?;
                has_begun = true;
            }
        }
        let last = self.0 % 1_000;
        if has_begun {
            write!(f, "{last:03}")
        } else {
            write!(f, "{last}")
        }
    }
}

/// What the help says of faults and of the exit status, behind all else.
pub struct FaultsHelp;

impl Display for FaultsHelp {
    fn fmt<W: fmt::Write>(&self, f: &mut Formatter<W>) -> fmt::Result {
        write!(
            f,
            "
Faults of a process, in the lines below `status faulted`:
  F1   the program's own abort, with its code
  F2   no such process, with its number
  F3   no registered area begins there, with the address
  F4   words outside the area of the other process
  F5   words outside the own memory
  F6   a tag that is not as long as the tag size
  F7   no message is left
  F8   more than {} requests in a turn
  F9   work of more than {} in a turn
  F10  more than {} lines in a turn
  F11  a payload of more than {} words, or a line of more than {}
  F12  a tag size of more than {} words
Faults of the end of a superstep, in the line `status syncfault`:
  S1   some processes ended and some did not
  S2   different tag sizes
  S3   different pops
  S4   different numbers of pushes
  S5   more than {} slots of registered areas

The exit status is 0, or 1 after `fault read`, `fault write` or `fault memory`, 2 where the command line is
refused, and 3 after `fault long` or `fault J1` to `fault J7`, where the document is. A line below `fault J1`
to `fault J7` says where the fault is.
",
            Grouped(MOST_REQUESTS as u64),
            Grouped(MOST_WORK),
            Grouped(MOST_LINES as u64),
            Grouped(MOST_PAYLOAD_WORDS as u64),
            Grouped(MOST_LINE_WORDS as u64),
            Grouped(MOST_TAG_WORDS),
            Grouped(MOST_SLOTS as u64)
        )
    }
}

/// What the version says behind its own line: the limits, as `./build --limits` takes them, where they have a name.
pub struct NamedLimits;

impl Display for NamedLimits {
    fn fmt<W: fmt::Write>(&self, f: &mut Formatter<W>) -> fmt::Result {
        if NAME.is_empty() {
            return Ok(());
        }
        write!(
            f,
            "\
limits {NAME}
MOST_PROCESSES = {MOST_PROCESSES}
MOST_MEMORY_WORDS = {MOST_MEMORY_WORDS}
MOST_ARGUMENTS = {MOST_ARGUMENTS}
MOST_SUPERSTEPS = {MOST_SUPERSTEPS}
HIGHEST_PRICE = {HIGHEST_PRICE}
MOST_WORK = {MOST_WORK}
MOST_REQUESTS = {MOST_REQUESTS}
MOST_PAYLOAD_WORDS = {MOST_PAYLOAD_WORDS}
MOST_TAG_WORDS = {MOST_TAG_WORDS}
MOST_SLOTS = {MOST_SLOTS}
MOST_LINES = {MOST_LINES}
MOST_LINE_WORDS = {MOST_LINE_WORDS}
MOST_DOCUMENT_BYTES = {MOST_DOCUMENT_BYTES}
MOST_WORKERS = {MOST_WORKERS}
"
        )
    }
}
