//! A range of stored words.

ghost use Rattle.std.specs.Prelude.{◌≡◌, ◌+◌, ◌<◌, ◌^◌, vec_len, vec_capacity};
ghost use Rattle.bsp_model.specs.Inside.Ranges.{longer, last_len};

use crate::Same;

/// Words that were stored one behind the other.
#[derive(Clone, Copy)]
pub struct Range {
    pub start: u64,
    pub len: usize,
}

impl Same for Range {
    fn same(&self, other: &Range) -> bool {
        self.start == other.start && self.len == other.len
    }
}

#[inline]
pub fn add_words(ranges: &mut Vec<Range>, start: u64, len: usize)
    requires room { vec_len ranges.old < vec_capacity ranges.old }
    requires fits { last_len ranges.old.items + len < 2 ^ 64 }
    ensures { ranges.new.items ≡ longer ranges.old.items start len }
{
    let count = ranges.len();
    if count > 0 {
        let last = &mut ranges[count - 1];
        if start >= last.start && start - last.start == last.len as u64 {
            last.len += len;
            return;
        }
    }
    ranges.push_reserved(Range { start, len });
}
