// The predicates that several programs ask by.
use tables::{Predicate, Range};

pub const ALL: Predicate = Predicate {
    key: None,
    first: None,
    second: None,
};

pub const KEY_1: Predicate = Predicate {
    key: Some(Range { low: 1, high: 1 }),
    ..ALL
};

pub const KEY_2: Predicate = Predicate {
    key: Some(Range { low: 2, high: 2 }),
    ..ALL
};

pub const LOW_SECONDS: Predicate = Predicate {
    second: Some(Range {
        low: -300,
        high: -200,
    }),
    ..ALL
};
