//! The lines of one process.

ghost use Rattle.std.specs.Prelude.{◌≡◌, ◌<◌, [], length, nat_eq, option_map, slice_get, slice_index_or, IfOk};
ghost use Rattle.bsp_model.specs.Columns.{row_at};

use bsp_model::{LineColumn, OutOfMemory, PrintedLinesRef, Same, Shared, TryCopy};
use std::marker::Model;

/// The lines that a process printed, in order. They lie among those of other processes, in a column that its copies share, so that a copy takes no
/// memory.
#[derive(Drop)]
pub struct Lines {
    all: Shared<LineColumn>,
    place: usize,
}

impl Model for Lines {
    ghost use Rattle.std.specs.Prelude.{List, ℕ};
    ghost use Rattle.bsp_model.specs.Columns.{row_at};

    ghost Value = { List (List ℕ) };

    ghost view = { λ l. row_at l.all l.place };
}

impl Lines {
    /// Those of the process at a place, which share the column.
    pub(crate) fn at(all: &Shared<LineColumn>, place: usize) -> Result<Lines, OutOfMemory>
        ensures { IfOk result (λ lines. lines ≡ row_at all.now place) }
    {
        Ok(Lines {
            all: all.copy()?,
            place,
        })
    }

    /// These lines, to be read where they lie.
    #[inline(always)]
    pub fn as_ref(&self) -> PrintedLinesRef<'_>
        ensures { result ≡ self.now }
    {
        self.all.get(self.place)
    }

    /// The number of lines.
    pub fn len(&self) -> usize
        ensures { result ≡ length self.now }
    {
        self.as_ref().len()
    }

    /// Whether there is no line.
    pub fn is_empty(&self) -> bool
        ensures { result ≡ nat_eq (length self.now) 0 }
    {
        self.as_ref().is_empty()
    }

    /// The words of a line, by its number.
    pub fn row(&self, number: usize) -> &[u64]
        requires { number < length self.now }
        ensures { result.now ≡ slice_index_or self.now number [] }
    {
        self.as_ref().row(number)
    }

    /// The words of a line, by its number, if there is one.
    pub fn get(&self, number: usize) -> Option<&[u64]>
        ensures { option_map (λ line. line.now) result ≡ slice_get self.now number }
    {
        if number >= self.len() {
            return None;
        }
        Some(self.row(number))
    }
}

impl TryCopy for Lines {
    fn copy(&self) -> Result<Lines, OutOfMemory> {
        Lines::at(&self.all, self.place)
    }
}

impl Same for Lines {
    fn same(&self, other: &Lines) -> bool {
        self.as_ref().same(&other.as_ref())
    }
}
