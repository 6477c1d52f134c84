// Tables of cases.
use crate::expected::Case;
use crate::expected::Expected::{Changed, Done, FewPlaces, Key, Refused, Rows, Sealed, Value};
use crate::requests::Ask::{Delete, Insert, Lower, Open, Raise, Seal, Select, Unseal, Update};
use crate::requests::Request;
use rung_requests::predicates::{ALL, KEY_2, LOW_SECONDS};
use tables::{Predicate, Range};

const KEY_UP_TO_1: Predicate = Predicate {
    key: Some(Range { low: -5, high: 1 }),
    ..ALL
};

const FIRST_4_TO_6: Predicate = Predicate {
    first: Some(Range { low: 4, high: 6 }),
    ..ALL
};

const FIRST_4_OF_KEY_2: Predicate = Predicate {
    key: Some(Range { low: 2, high: 2 }),
    first: Some(Range { low: 4, high: 4 }),
    ..ALL
};

const FIRST_BACKWARDS: Predicate = Predicate {
    first: Some(Range { low: 5, high: 1 }),
    ..ALL
};

const SECOND_BACKWARDS: Predicate = Predicate {
    second: Some(Range { low: 5, high: -5 }),
    ..ALL
};

const KEY_2_TO_9: Predicate = Predicate {
    key: Some(Range { low: 2, high: 9 }),
    ..ALL
};

pub const OPENING_RAISING_LOWERING: &[Case] = &[
    (Request(3, Open(0, 7)), Refused(1, None), None),
    (Request(0, Open(3, 2)), Refused(5, None), None),
    (Request(0, Open(0, 8)), Refused(15, None), None),
    (Request(3, Raise(0)), Refused(1, None), None),
    (Request(3, Raise(8)), Refused(15, None), None),
    (Request(0, Raise(0)), Refused(2, None), None),
    (Request(3, Lower(7)), Refused(1, None), None),
    (Request(0, Lower(7)), Refused(2, None), None),
    (Request(0, Open(7, 7)), Done, Some((7, 7))),
    (Request(0, Open(0, 0)), Done, Some((0, 0))),
    (Request(0, Raise(1)), Refused(8, Some(0)), Some((0, 0))),
    (Request(0, Open(2, 6)), Done, Some((2, 6))),
    (Request(0, Open(6, 2)), Refused(5, None), Some((2, 6))),
    (Request(0, Raise(0)), Done, Some((2, 6))),
    (Request(0, Raise(4)), Done, Some((4, 6))),
    (Request(0, Raise(3)), Done, Some((4, 6))),
    (Request(0, Raise(7)), Refused(8, Some(4)), Some((4, 6))),
    (Request(0, Lower(7)), Refused(5, None), Some((4, 6))),
    (Request(0, Lower(3)), Refused(5, None), Some((4, 6))),
    (Request(0, Lower(6)), Done, Some((4, 6))),
    (Request(0, Lower(5)), Done, Some((4, 5))),
    (Request(0, Raise(6)), Refused(8, Some(4)), Some((4, 5))),
    (Request(0, Raise(5)), Done, Some((5, 5))),
    (Request(0, Lower(5)), Done, Some((5, 5))),
    (Request(1, Raise(0)), Refused(2, None), None),
    (Request(1, Open(0, 7)), Done, Some((0, 7))),
    (Request(0, Raise(0)), Done, Some((5, 5))),
];

pub const SEALING_UNSEALING: &[Case] = &[
    (Request(3, Seal(9, 0)), Refused(1, None), None),
    (Request(0, Seal(9, 0)), Refused(2, None), None),
    (Request(3, Unseal(0, 9)), Refused(1, None), None),
    (Request(0, Unseal(0, 9)), Refused(2, None), None),
    (Request(0, Open(2, 5)), Done, Some((2, 5))),
    (Request(0, Seal(9, 1)), Refused(5, None), Some((2, 5))),
    (Request(0, Seal(9, 6)), Refused(5, None), Some((2, 5))),
    (
        Request(0, Seal(9, 18446744073709551615)),
        Refused(15, None),
        Some((2, 5)),
    ),
    (
        Request(0, Seal(-2147483648, 2)),
        Sealed(2, -2147483648),
        Some((2, 5)),
    ),
    (
        Request(0, Seal(2147483647, 5)),
        Sealed(5, 2147483647),
        Some((2, 5)),
    ),
    (Request(0, Unseal(6, 9)), Refused(8, Some(2)), Some((2, 5))),
    (Request(0, Unseal(1, -9)), Value(-9), Some((2, 5))),
    (Request(0, Unseal(5, 0)), Value(0), Some((5, 5))),
    (Request(0, Seal(9, 4)), Refused(5, None), Some((5, 5))),
    (Request(1, Open(0, 7)), Done, Some((0, 7))),
    (Request(1, Unseal(7, 9)), Value(9), Some((7, 7))),
    (Request(1, Seal(9, 7)), Sealed(7, 9), Some((7, 7))),
];

pub const SELECTING: &[Case] = &[
    (Request(3, Select(0, ALL, 4)), Refused(1, None), None),
    (Request(2, Select(0, ALL, 4)), Refused(2, None), None),
    (Request(0, Open(0, 7)), Done, Some((0, 7))),
    (
        Request(0, Select(5, ALL, 4)),
        Refused(3, Some(0)),
        Some((0, 7)),
    ),
    (
        Request(0, Select(6, ALL, 4)),
        Refused(3, Some(0)),
        Some((0, 7)),
    ),
    (
        Request(0, Select(2, ALL, 4)),
        Refused(4, Some(0)),
        Some((0, 7)),
    ),
    (Request(1, Open(0, 1)), Done, Some((0, 1))),
    (
        Request(1, Select(0, ALL, 4)),
        Refused(8, Some(0)),
        Some((0, 1)),
    ),
    (
        Request(0, Insert(0, (1, 4), (4, -250))),
        Key(1),
        Some((2, 7)),
    ),
    (Request(0, Insert(0, (0, 6), (0, 10))), Key(2), Some((2, 7))),
    (Request(1, Open(0, 3)), Done, Some((0, 3))),
    (
        Request(1, Select(0, LOW_SECONDS, 4)),
        Refused(9, Some(2)),
        Some((2, 3)),
    ),
    (
        Request(1, Select(0, LOW_SECONDS, 0)),
        Refused(9, Some(2)),
        Some((2, 3)),
    ),
    (
        Request(1, Select(0, SECOND_BACKWARDS, 0)),
        Refused(9, Some(2)),
        Some((2, 3)),
    ),
    (
        Request(1, Select(0, ALL, 1)),
        Refused(14, Some(2)),
        Some((2, 3)),
    ),
    (Request(1, Select(0, ALL, 2)), Rows(2), Some((2, 3))),
    (Request(1, Select(0, ALL, 4)), Rows(2), Some((2, 3))),
    (Request(1, Select(0, ALL, 5)), FewPlaces(0), Some((2, 3))),
    (
        Request(1, Select(0, KEY_2, 0)),
        Refused(14, Some(2)),
        Some((2, 3)),
    ),
    (Request(1, Select(0, KEY_2, 1)), Rows(1), Some((2, 3))),
    (
        Request(1, Select(0, FIRST_BACKWARDS, 0)),
        Rows(0),
        Some((2, 3)),
    ),
    (Request(1, Select(0, KEY_UP_TO_1, 4)), Rows(1), Some((2, 3))),
    (
        Request(1, Select(0, FIRST_4_OF_KEY_2, 4)),
        Rows(0),
        Some((2, 3)),
    ),
    (
        Request(1, Select(0, FIRST_4_TO_6, 4)),
        Rows(2),
        Some((2, 3)),
    ),
    (Request(2, Open(0, 0)), Done, Some((0, 0))),
    (Request(2, Select(1, LOW_SECONDS, 0)), Rows(0), Some((0, 0))),
    (
        Request(0, Select(0, LOW_SECONDS, 0)),
        Refused(14, Some(6)),
        Some((6, 7)),
    ),
    (
        Request(0, Select(0, SECOND_BACKWARDS, 0)),
        Rows(0),
        Some((6, 7)),
    ),
    (Request(0, Select(1, LOW_SECONDS, 0)), Rows(0), Some((6, 7))),
];

pub const INSERTING: &[Case] = &[
    (
        Request(3, Insert(0, (0, 0), (0, 0))),
        Refused(1, None),
        None,
    ),
    (
        Request(2, Insert(0, (0, 0), (0, 0))),
        Refused(2, None),
        None,
    ),
    (Request(0, Open(3, 7)), Done, Some((3, 7))),
    (
        Request(0, Insert(5, (0, 0), (0, 0))),
        Refused(3, Some(3)),
        Some((3, 7)),
    ),
    (
        Request(0, Insert(2, (0, 0), (0, 0))),
        Refused(4, Some(3)),
        Some((3, 7)),
    ),
    (
        Request(0, Insert(0, (0, 0), (0, 0))),
        Refused(6, Some(3)),
        Some((3, 7)),
    ),
    (
        Request(0, Insert(0, (2, 4), (0, 0))),
        Refused(6, Some(3)),
        Some((3, 7)),
    ),
    (Request(0, Open(0, 7)), Done, Some((0, 7))),
    (
        Request(0, Insert(0, (2, 4), (0, 9))),
        Refused(7, Some(0)),
        Some((0, 7)),
    ),
    (Request(0, Open(0, 1)), Done, Some((0, 1))),
    (
        Request(0, Insert(0, (1, 4), (0, 0))),
        Refused(8, Some(0)),
        Some((0, 1)),
    ),
    (
        Request(0, Insert(0, (2, 4), (0, 0))),
        Refused(7, Some(0)),
        Some((0, 1)),
    ),
    (Request(0, Open(0, 7)), Done, Some((0, 7))),
    (
        Request(0, Insert(0, (0, 0), (1, 0))),
        Refused(11, Some(2)),
        Some((2, 7)),
    ),
    (Request(0, Insert(0, (0, -1), (7, 0))), Key(1), Some((2, 7))),
    (Request(0, Insert(0, (1, 8), (7, 0))), Key(2), Some((2, 7))),
    (
        Request(0, Insert(0, (1, 8), (7, 0))),
        Refused(12, Some(2)),
        Some((2, 7)),
    ),
    (
        Request(0, Insert(3, (0, 5), (5, 1))),
        Refused(11, Some(3)),
        Some((3, 7)),
    ),
    (
        Request(0, Insert(3, (0, 1), (2, 1))),
        Refused(11, Some(3)),
        Some((3, 7)),
    ),
    (
        Request(0, Insert(3, (0, 5), (4, 1))),
        Refused(12, Some(3)),
        Some((3, 7)),
    ),
    (Request(1, Open(0, 3)), Done, Some((0, 3))),
    (
        Request(1, Insert(1, (0, 1), (6, 1))),
        Refused(11, Some(0)),
        Some((0, 3)),
    ),
    (Request(1, Insert(1, (0, 1), (5, 1))), Key(1), Some((0, 3))),
    (
        Request(1, Insert(1, (0, 1), (5, 1))),
        Refused(12, Some(0)),
        Some((0, 3)),
    ),
    (
        Request(1, Insert(4, (1, 1), (3, 3))),
        Refused(11, Some(1)),
        Some((1, 3)),
    ),
    (Request(1, Insert(4, (1, 1), (2, 3))), Key(1), Some((1, 3))),
    (Request(1, Insert(4, (1, 9), (7, 3))), Key(2), Some((1, 3))),
    (Request(1, Insert(4, (0, 0), (2, 3))), Key(3), Some((1, 3))),
];

pub const DELETING: &[Case] = &[
    (Request(3, Delete(0, ALL)), Refused(1, None), None),
    (Request(2, Delete(0, ALL)), Refused(2, None), None),
    (Request(0, Open(3, 7)), Done, Some((3, 7))),
    (
        Request(0, Delete(5, ALL)),
        Refused(3, Some(3)),
        Some((3, 7)),
    ),
    (
        Request(0, Delete(2, ALL)),
        Refused(4, Some(3)),
        Some((3, 7)),
    ),
    (
        Request(0, Delete(0, ALL)),
        Refused(6, Some(3)),
        Some((3, 7)),
    ),
    (Request(0, Open(0, 1)), Done, Some((0, 1))),
    (
        Request(0, Delete(0, ALL)),
        Refused(8, Some(0)),
        Some((0, 1)),
    ),
    (Request(0, Open(0, 7)), Done, Some((0, 7))),
    (
        Request(0, Insert(0, (1, 4), (4, -250))),
        Key(1),
        Some((2, 7)),
    ),
    (Request(0, Insert(0, (0, 2), (0, 10))), Key(2), Some((2, 7))),
    (
        Request(0, Delete(0, LOW_SECONDS)),
        Refused(10, Some(2)),
        Some((2, 7)),
    ),
    (
        Request(0, Delete(0, SECOND_BACKWARDS)),
        Refused(10, Some(2)),
        Some((2, 7)),
    ),
    (
        Request(0, Delete(0, FIRST_BACKWARDS)),
        Changed(0),
        Some((2, 7)),
    ),
    (Request(0, Delete(0, KEY_2)), Changed(1), Some((2, 7))),
    (Request(0, Insert(0, (0, 2), (0, 10))), Key(3), Some((2, 7))),
    (Request(0, Delete(0, ALL)), Changed(2), Some((2, 7))),
    (Request(0, Delete(0, LOW_SECONDS)), Changed(0), Some((2, 7))),
    (Request(0, Insert(0, (0, 2), (0, 10))), Key(4), Some((2, 7))),
    (
        Request(0, Insert(0, (0, 2), (0, -250))),
        Key(5),
        Some((2, 7)),
    ),
    (Request(0, Delete(0, LOW_SECONDS)), Changed(1), Some((2, 7))),
];

pub const UPDATING: &[Case] = &[
    (
        Request(3, Update(0, ALL, (0, 0), (0, 0))),
        Refused(1, None),
        None,
    ),
    (
        Request(2, Update(0, ALL, (0, 0), (0, 0))),
        Refused(2, None),
        None,
    ),
    (Request(0, Open(2, 7)), Done, Some((2, 7))),
    (
        Request(0, Update(0, ALL, (8, 0), (0, 0))),
        Refused(15, None),
        Some((2, 7)),
    ),
    (
        Request(0, Update(5, ALL, (0, 0), (0, 0))),
        Refused(3, Some(2)),
        Some((2, 7)),
    ),
    (
        Request(0, Update(6, ALL, (0, 0), (0, 0))),
        Refused(3, Some(2)),
        Some((2, 7)),
    ),
    (
        Request(0, Update(2, ALL, (4, 0), (0, 0))),
        Refused(4, Some(2)),
        Some((2, 7)),
    ),
    (
        Request(0, Update(0, ALL, (0, 4), (0, 0))),
        Refused(6, Some(2)),
        Some((2, 7)),
    ),
    (
        Request(0, Update(0, ALL, (2, 4), (0, 0))),
        Refused(6, Some(2)),
        Some((2, 7)),
    ),
    (Request(0, Open(0, 1)), Done, Some((0, 1))),
    (
        Request(0, Update(0, ALL, (2, 4), (0, 0))),
        Refused(7, Some(0)),
        Some((0, 1)),
    ),
    (
        Request(0, Update(0, ALL, (1, 4), (7, 0))),
        Refused(8, Some(0)),
        Some((0, 1)),
    ),
    (Request(0, Open(0, 7)), Done, Some((0, 7))),
    (
        Request(0, Insert(0, (1, 4), (4, -250))),
        Key(1),
        Some((2, 7)),
    ),
    (Request(0, Insert(0, (0, 6), (0, 10))), Key(2), Some((2, 7))),
    (Request(0, Open(1, 7)), Done, Some((1, 7))),
    (
        Request(0, Update(0, LOW_SECONDS, (0, 3), (7, 0))),
        Refused(10, Some(2)),
        Some((2, 7)),
    ),
    (Request(0, Open(1, 7)), Done, Some((1, 7))),
    (
        Request(0, Update(0, SECOND_BACKWARDS, (0, 3), (0, 0))),
        Refused(10, Some(2)),
        Some((2, 7)),
    ),
    (Request(0, Open(1, 7)), Done, Some((1, 7))),
    (
        Request(0, Update(0, ALL, (0, 0), (0, 9))),
        Refused(11, Some(2)),
        Some((2, 7)),
    ),
    (Request(0, Open(1, 7)), Done, Some((1, 7))),
    (
        Request(0, Update(0, ALL, (0, 1), (2, 9))),
        Refused(11, Some(2)),
        Some((2, 7)),
    ),
    (Request(0, Open(0, 7)), Done, Some((0, 7))),
    (
        Request(0, Update(0, ALL, (0, 0), (0, 9))),
        Changed(2),
        Some((2, 7)),
    ),
    (Request(0, Open(1, 7)), Done, Some((1, 7))),
    (
        Request(0, Update(0, KEY_2, (1, -1), (7, 5))),
        Changed(1),
        Some((2, 7)),
    ),
    (Request(0, Open(1, 7)), Done, Some((1, 7))),
    (
        Request(0, Update(0, FIRST_BACKWARDS, (0, 3), (0, 0))),
        Changed(0),
        Some((2, 7)),
    ),
    (Request(0, Delete(0, ALL)), Changed(2), Some((2, 7))),
    (Request(0, Open(1, 7)), Done, Some((1, 7))),
    (
        Request(0, Update(0, LOW_SECONDS, (0, 3), (0, 0))),
        Changed(0),
        Some((2, 7)),
    ),
    (
        Request(0, Insert(0, (0, 0), (0, -250))),
        Key(3),
        Some((2, 7)),
    ),
    (Request(0, Insert(0, (0, 1), (1, 10))), Key(4), Some((2, 7))),
    (Request(0, Open(0, 7)), Done, Some((0, 7))),
    (
        Request(0, Update(0, LOW_SECONDS, (0, 0), (0, 7))),
        Refused(11, Some(2)),
        Some((2, 7)),
    ),
    (Request(0, Open(0, 7)), Done, Some((0, 7))),
    (
        Request(0, Update(0, LOW_SECONDS, (0, 1), (0, 7))),
        Changed(1),
        Some((2, 7)),
    ),
];

pub const UPDATING_BY_EACH_RULE: &[Case] = &[
    (Request(1, Open(0, 3)), Done, Some((0, 3))),
    (Request(1, Insert(1, (0, 1), (5, 1))), Key(1), Some((0, 3))),
    (
        Request(1, Update(1, ALL, (0, 7), (6, 1))),
        Refused(11, Some(0)),
        Some((0, 3)),
    ),
    (
        Request(1, Update(1, ALL, (0, 7), (5, 2))),
        Changed(1),
        Some((0, 3)),
    ),
    (
        Request(1, Update(1, LOW_SECONDS, (0, 7), (5, 2))),
        Refused(10, Some(0)),
        Some((0, 3)),
    ),
    (
        Request(1, Update(1, ALL, (1, 7), (5, 2))),
        Refused(7, Some(0)),
        Some((0, 3)),
    ),
    (Request(1, Raise(1)), Done, Some((1, 3))),
    (
        Request(1, Update(1, ALL, (0, 7), (5, 2))),
        Refused(6, Some(1)),
        Some((1, 3)),
    ),
    (Request(2, Open(0, 7)), Done, Some((0, 7))),
    (
        Request(2, Update(3, ALL, (0, 5), (5, 1))),
        Refused(11, Some(3)),
        Some((3, 7)),
    ),
    (Request(2, Open(0, 7)), Done, Some((0, 7))),
    (
        Request(2, Update(3, ALL, (0, 1), (2, 1))),
        Refused(11, Some(3)),
        Some((3, 7)),
    ),
    (Request(2, Open(0, 7)), Done, Some((0, 7))),
    (
        Request(2, Update(3, ALL, (0, 5), (4, 1))),
        Changed(0),
        Some((3, 7)),
    ),
    (
        Request(2, Update(3, ALL, (0, 5), (4, 1))),
        Refused(6, Some(3)),
        Some((3, 7)),
    ),
    (
        Request(1, Update(4, ALL, (1, 1), (3, 3))),
        Refused(11, Some(1)),
        Some((1, 3)),
    ),
    (Request(1, Insert(4, (1, 1), (2, 3))), Key(1), Some((1, 3))),
    (
        Request(1, Update(4, ALL, (1, 0), (2, 3))),
        Changed(1),
        Some((1, 3)),
    ),
    (
        Request(1, Update(4, ALL, (1, 9), (7, 3))),
        Changed(1),
        Some((1, 3)),
    ),
    (
        Request(1, Update(4, SECOND_BACKWARDS, (1, 9), (7, 3))),
        Refused(10, Some(1)),
        Some((1, 3)),
    ),
];

pub const REOPENING: &[Case] = &[
    (Request(0, Open(0, 7)), Done, Some((0, 7))),
    (Request(0, Raise(5)), Done, Some((5, 7))),
    (Request(0, Open(2, 3)), Done, Some((2, 3))),
    (Request(0, Raise(4)), Refused(8, Some(2)), Some((2, 3))),
    (Request(0, Open(1, 6)), Done, Some((1, 6))),
    (Request(0, Open(6, 1)), Refused(5, None), Some((1, 6))),
    (Request(0, Open(0, 8)), Refused(15, None), Some((1, 6))),
    (Request(0, Lower(2)), Done, Some((1, 2))),
    (Request(0, Open(3, 3)), Done, Some((3, 3))),
    (Request(1, Open(0, 0)), Done, Some((0, 0))),
    (Request(0, Raise(3)), Done, Some((3, 3))),
];

pub const UPDATED_AND_READ: &[Case] = &[
    (Request(0, Open(0, 7)), Done, Some((0, 7))),
    (
        Request(0, Insert(0, (0, 4), (0, -250))),
        Key(1),
        Some((2, 7)),
    ),
    (Request(0, Insert(0, (0, 6), (2, 20))), Key(2), Some((2, 7))),
    (
        Request(0, Insert(0, (0, -5), (0, 30))),
        Key(3),
        Some((2, 7)),
    ),
    (Request(0, Open(1, 7)), Done, Some((1, 7))),
    (
        Request(0, Update(0, KEY_2_TO_9, (1, 5), (3, -77))),
        Changed(2),
        Some((2, 7)),
    ),
    (Request(0, Select(0, ALL, 4)), Rows(3), Some((2, 7))),
];

pub const KEYS_SPENT: &[Case] = &[
    (Request(0, Open(0, 7)), Done, Some((0, 7))),
    (
        Request(0, Insert(0, (0, 0), (0, 0))),
        Key(1000000),
        Some((2, 7)),
    ),
    (
        Request(0, Insert(0, (0, 0), (0, 0))),
        Refused(12, Some(2)),
        Some((2, 7)),
    ),
    (Request(0, Delete(0, ALL)), Changed(1), Some((2, 7))),
    (
        Request(0, Insert(0, (0, 0), (0, 0))),
        Refused(13, Some(2)),
        Some((2, 7)),
    ),
];

// On records of the first table alone.
pub const WITH_ONE_RECORD: &[Case] = &[
    (Request(0, Open(0, 7)), Done, Some((0, 7))),
    (
        Request(0, Select(1, ALL, 1)),
        Refused(3, Some(0)),
        Some((0, 7)),
    ),
    (Request(0, Insert(0, (0, 0), (0, 0))), Key(1), Some((2, 7))),
    (
        Request(0, Select(0, ALL, 0)),
        Refused(14, Some(2)),
        Some((2, 7)),
    ),
];
