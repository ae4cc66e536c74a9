//! Batches to a session of the sums, and what comes of each.

use super::Change;
use crate::tests::known::{CUT_SUMS_END, End, SUMS_END, SUMS_OF_ONES_END};
use bsp_incr::{Edit, EditFault, EditRefusal, Place};
use bsp_model::limits::{HIGHEST_PRICE, MOST_SUPERSTEPS};

/// A batch that changes nothing of the sums.
pub const NOTHING: Change = Change {
    batch: &[],
    refusal: None,
    executed: &[],
    redelivered: &[],
    looks: 0,
    most_places: None,
    end: SUMS_END,
};

/// The turns and the deliveries that depend on the first word of the sums.
const FIRST: Change = Change {
    executed: places![(1, 0), (2, 0), (2, 1), (3, 0), (3, 1), (3, 2), (3, 3)],
    redelivered: places![(0, 0), (1, 0), (1, 1), (2, 0), (2, 1), (2, 2), (2, 3)],
    looks: 8,
    most_places: Some(8),
    ..NOTHING
};

/// The first word becomes 2. Of two edits of it the last counts.
pub const FIRST_WORD: Change = Change {
    batch: &[word!(0, 0, 9), word!(0, 0, 2)],
    end: End {
        memories: &[&[2, 0], &[4, 2], &[7, 2], &[11, 4]],
        prints: &[2, 4, 7, 11],
        total: 40,
    },
    ..FIRST
};

pub const FIRST_WORD_AGAIN: Change = Change {
    batch: &[word!(0, 0, 1)],
    ..FIRST
};

const LAST_WORD_END: End = End {
    memories: &[&[1, 0], &[3, 1], &[6, 1], &[11, 3]],
    prints: &[1, 3, 6, 11],
    total: 40,
};

const LAST_WORD: Change = Change {
    batch: &[word!(3, 0, 5)],
    executed: places![(2, 3), (3, 3)],
    redelivered: places![(0, 3), (1, 3), (2, 3)],
    looks: 4,
    most_places: Some(4),
    end: LAST_WORD_END,
    ..NOTHING
};

/// Batches that are refused, that change nothing, and that change a word.
pub const CHANGES_OF_SUMS: [Change; 13] = [
    Change {
        batch: &[word!(0, 0, 2), word!(4, 0, 1)],
        refusal: Some(EditRefusal {
            place: 1,
            fault: EditFault::NoSuchProcess,
        }),
        ..NOTHING
    },
    Change {
        batch: &[word!(0, 2, 1)],
        refusal: Some(EditRefusal {
            place: 0,
            fault: EditFault::NoSuchWord,
        }),
        ..NOTHING
    },
    Change {
        batch: &[Edit::Arg {
            pid: 0,
            index: 0,
            value: 1,
        }],
        refusal: Some(EditRefusal {
            place: 0,
            fault: EditFault::NoSuchArg,
        }),
        ..NOTHING
    },
    Change {
        batch: &[
            Edit::Prices { g: 1, l: 0 },
            Edit::Limit(MOST_SUPERSTEPS + 1),
            Edit::Limit(2),
        ],
        refusal: Some(EditRefusal {
            place: 1,
            fault: EditFault::BadLimit,
        }),
        ..NOTHING
    },
    Change {
        batch: &[
            Edit::Limit(2),
            Edit::Prices {
                g: 4,
                l: HIGHEST_PRICE + 1,
            },
        ],
        refusal: Some(EditRefusal {
            place: 1,
            fault: EditFault::BadPrice,
        }),
        ..NOTHING
    },
    NOTHING,
    Change {
        batch: &[word!(1, 0, 2)],
        most_places: Some(1),
        ..NOTHING
    },
    Change {
        batch: &[word!(3, 0, 9), word!(3, 0, 4)],
        ..NOTHING
    },
    FIRST_WORD,
    FIRST_WORD_AGAIN,
    LAST_WORD,
    Change {
        batch: &[word!(3, 0, 4)],
        end: SUMS_END,
        ..LAST_WORD
    },
    Change {
        batch: &[word!(3, 0, 9), word!(3, 0, 5)],
        ..LAST_WORD
    },
];

/// The limit becomes 16 after 2.
pub const LONGER: Change = Change {
    batch: &[Edit::Limit(16)],
    executed: places![
        (2, 0),
        (2, 1),
        (2, 2),
        (2, 3),
        (3, 0),
        (3, 1),
        (3, 2),
        (3, 3)
    ],
    redelivered: places![(2, 0), (2, 1), (2, 2), (2, 3)],
    ..NOTHING
};

pub const CUT: Change = Change {
    batch: &[Edit::Limit(2)],
    end: CUT_SUMS_END,
    ..NOTHING
};

pub const CHANGES_OF_LIMITS: [Change; 4] = [
    LONGER,
    CUT,
    Change {
        batch: &[Edit::Prices { g: 1, l: 0 }],
        end: End {
            total: 1,
            ..CUT_SUMS_END
        },
        ..NOTHING
    },
    Change {
        batch: &[Edit::Prices { g: 4, l: 10 }, Edit::Limit(16)],
        ..LONGER
    },
];

pub const LAST_ONE: Change = Change {
    batch: &[word!(63, 0, 2)],
    executed: places![(2, 63), (3, 63), (4, 63), (5, 63), (6, 63), (7, 63)],
    redelivered: places![
        (0, 63),
        (1, 63),
        (2, 63),
        (3, 63),
        (4, 63),
        (5, 63),
        (6, 63)
    ],
    looks: 8,
    most_places: Some(8),
    end: SUMS_OF_ONES_END,
    ..NOTHING
};

/// The first word becomes 2 for a program that looks everywhere.
pub const FIRST_WORD_EVERYWHERE: Change = Change {
    executed: places![
        (0, 0),
        (1, 0),
        (2, 0),
        (2, 1),
        (3, 0),
        (3, 1),
        (3, 2),
        (3, 3)
    ],
    ..FIRST_WORD
};
