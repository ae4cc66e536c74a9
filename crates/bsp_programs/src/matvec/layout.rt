//! Where the parts of a matrix product lie.

ghost use Rattle.std.specs.Prelude.{◌≡◌, ◌≤◌, ◌<◌, ◌+◌, ◌*◌};
ghost use Rattle.bsp_model.specs.Limits.{most_line_words, most_processes};
ghost use Rattle.bsp_programs.specs.MatVec.{columns, block_start, vector_start, product_start, is_within};

/// Where the parts of a matrix product lie in the memory of each process.
#[derive(Clone, Copy)]
pub(super) struct Layout {
    /// The number of processes, at most `MOST_PROCESSES`.
    pub nprocs: u64,
    /// The number of rows of each process, at most `MOST_LINE_WORDS`.
    pub block: u64,
    ghost few_processes: { nprocs ≤ most_processes },
    ghost short_block: { block ≤ most_line_words },
}

impl Layout {
    pub fn columns(self) -> u64
        ensures value { result ≡ columns self.nprocs self.block }
        ensures small { result ≤ most_processes * most_line_words }
    {
        self.nprocs * self.block
    }

    /// Where the own block of the vector starts: after the rows of the matrix.
    pub fn block_start(self) -> u64
        ensures value { result ≡ block_start self.nprocs self.block }
        ensures small { result ≤ most_line_words * (most_processes * most_line_words) }
    {
        self.block * self.columns()
    }

    pub fn vector_start(self) -> u64
        ensures value { result ≡ vector_start self.nprocs self.block }
        ensures small { result ≤ most_line_words * (most_processes * most_line_words) + most_line_words }
    {
        self.block_start() + self.block
    }

    /// Where the own words of the product start.
    pub fn product_start(self) -> u64
        ensures value { result ≡ product_start self.nprocs self.block }
        ensures small { result ≤ most_line_words * (most_processes * most_line_words) + most_line_words + most_processes * most_line_words }
    {
        self.vector_start() + self.columns()
    }

    /// Where the block of a process starts in the whole vector.
    pub fn place_of(self, pid: u64) -> u64
        requires { pid < self.nprocs }
        ensures value { result ≡ vector_start self.nprocs self.block + pid * self.block }
        ensures small { result ≤ most_line_words * (most_processes * most_line_words) + most_line_words + most_processes * most_line_words }
    {
        self.vector_start() + pid * self.block
    }
}

pub(super) fn is_within(start: u64, len: u64, address: u64) -> bool
    ensures { result ≡ is_within start len address }
{
    address >= start && address - start < len
}
