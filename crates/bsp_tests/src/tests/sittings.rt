//! Sessions, the batches that they take, and what comes of each.

use super::known::{
    BROKEN_RANKS_END, CUT_SUMS, End, Known, NO_PRODUCT, PRODUCT, PRODUCT_END, RANKS, RANKS_END,
    SUMS, SUMS_OF_ONES, TOLD, TOLD_END,
};
use bsp_incr::{Edit, EditRefusal, Place};
use sums::{
    CHANGES_OF_LIMITS, CHANGES_OF_SUMS, CUT, FIRST_WORD, FIRST_WORD_AGAIN, FIRST_WORD_EVERYWHERE,
    LAST_ONE, LONGER, NOTHING,
};

/// A batch, and what comes of it.
#[derive(Clone, Copy)]
pub struct Change {
    pub batch: &'static [Edit],
    pub refusal: Option<EditRefusal>,
    /// The turns and the deliveries that are made again.
    pub executed: &'static [Place],
    pub redelivered: &'static [Place],
    /// At how many words that have changed it asks whether the program looks there.
    pub looks: u64,
    /// At how many places it looks at most, where that was counted by hand: it compares the view there, or takes the turn.
    pub most_places: Option<u64>,
    pub end: End,
}

/// A session, and the batches that it takes.
#[derive(Clone, Copy)]
pub struct Sitting {
    pub known: Known,
    pub changes: &'static [Change],
}

macro_rules! word {
    ($pid:literal, $addr:literal, $value:literal) => {
        Edit::Word {
            pid: $pid,
            addr: $addr,
            value: $value,
        }
    };
}

macro_rules! places {
    ($(($step:literal, $pid:literal)),*) => {
        &[$(Place { step: $step, pid: $pid }),*]
    };
}

// Below the macros, which it uses.
mod sums;

const OVERWRITTEN_WORD: Change = Change {
    batch: &[word!(2, 0, 9)],
    redelivered: places![(0, 2), (1, 2)],
    looks: 2,
    most_places: Some(3),
    end: TOLD_END,
    ..NOTHING
};

/// Element 0 of the list gets a successor that there is not.
const NO_SUCCESSOR: Change = Change {
    batch: &[word!(0, 0, 9)],
    executed: places![(1, 0)],
    redelivered: places![(0, 0)],
    looks: 2,
    end: BROKEN_RANKS_END,
    ..NOTHING
};

/// Element 0 of the list gets its former successor again.
const SUCCESSOR_AGAIN: Change = Change {
    batch: &[word!(0, 0, 3)],
    executed: places![
        (1, 0),
        (2, 0),
        (2, 1),
        (2, 2),
        (2, 3),
        (3, 0),
        (3, 1),
        (3, 2),
        (3, 3)
    ],
    redelivered: places![
        (0, 0),
        (1, 0),
        (1, 1),
        (1, 2),
        (1, 3),
        (2, 0),
        (2, 1),
        (2, 2),
        (2, 3)
    ],
    looks: 2,
    end: RANKS_END,
    ..NOTHING
};

/// Process 1 takes its blocks for empty no more.
const EVEN_BLOCKS: Change = Change {
    batch: &[Edit::Arg {
        pid: 1,
        index: 0,
        value: 1,
    }],
    executed: places![(0, 1), (1, 1), (2, 0), (2, 1)],
    redelivered: places![(1, 0), (1, 1)],
    end: PRODUCT_END,
    ..NOTHING
};

/// The number of the sums of ones.
pub const SUMS_OF_ONES_AT: usize = 2;

pub static SITTINGS: [Sitting; 6] = [
    Sitting {
        known: SUMS,
        changes: &CHANGES_OF_SUMS,
    },
    Sitting {
        known: CUT_SUMS,
        changes: &CHANGES_OF_LIMITS,
    },
    Sitting {
        known: SUMS_OF_ONES,
        changes: &[LAST_ONE],
    },
    Sitting {
        known: TOLD,
        changes: &[OVERWRITTEN_WORD],
    },
    Sitting {
        known: RANKS,
        changes: &[NO_SUCCESSOR, SUCCESSOR_AGAIN],
    },
    Sitting {
        known: NO_PRODUCT,
        changes: &[EVEN_BLOCKS],
    },
];

/// The sums by a program that looks everywhere.
pub static EVERYWHERE: Sitting = Sitting {
    known: SUMS,
    changes: &[FIRST_WORD_EVERYWHERE],
};

/// The vector of the product becomes 7, 8.
pub const OTHER_VECTOR: Change = Change {
    batch: &[word!(0, 2, 7), word!(1, 2, 8)],
    executed: places![(1, 0), (1, 1), (2, 0), (2, 1)],
    redelivered: places![(0, 0), (0, 1), (1, 0), (1, 1)],
    end: End {
        memories: &[&[1, 2, 7, 7, 8, 23], &[3, 4, 8, 7, 8, 53]],
        prints: &[23, 53],
        total: 30,
    },
    ..NOTHING
};

pub static OTHER_PRODUCT: Sitting = Sitting {
    known: PRODUCT,
    changes: &[OTHER_VECTOR],
};

/// Updates whose first one takes turns again, as runs that become shorter and longer.
pub static UPDATES: [Sitting; 3] = [
    Sitting {
        known: SUMS,
        changes: &[FIRST_WORD, FIRST_WORD_AGAIN],
    },
    Sitting {
        known: RANKS,
        changes: &[NO_SUCCESSOR, SUCCESSOR_AGAIN],
    },
    Sitting {
        known: CUT_SUMS,
        changes: &[LONGER, CUT],
    },
];
