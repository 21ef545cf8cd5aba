// The rows of the five tables, as fix_words has them. Rests on nothing.
use crate::Row;

// A row that must stand. Macros, since a static's value may call no `const fn`; and two, since in a table
// the one word says more than a flag behind two numbers.
macro_rules! must {
    ($tag:expr, $bit:expr) => {
        Row {
            tag: $tag,
            bit: $bit,
            must: true,
        }
    };
}

// A row that may.
macro_rules! may {
    ($tag:expr, $bit:expr) => {
        Row {
            tag: $tag,
            bit: $bit,
            must: false,
        }
    };
}

// ExecutionReport
pub(crate) static REPORT: [Row; 20] = [
    must!(37, 2),
    must!(11, 3),
    may!(41, 4),
    must!(55, 6),
    must!(54, 7),
    must!(40, 8),
    must!(38, 9),
    may!(44, 10),
    may!(59, 11),
    must!(150, 12),
    must!(39, 13),
    must!(32, 14),
    must!(14, 16),
    must!(6, 17),
    may!(103, 19),
    may!(58, 20),
    must!(151, 24),
    must!(17, 25),
    must!(31, 26),
    may!(58, 27),
];

// OrderCancelReject
pub(crate) static REJECT: [Row; 7] = [
    must!(37, 2),
    must!(11, 3),
    must!(41, 4),
    must!(39, 13),
    must!(102, 19),
    must!(58, 20),
    must!(434, 29),
];

// NewOrderSingle
pub(crate) static ORDER: [Row; 7] = [
    must!(11, 5),
    must!(55, 6),
    must!(54, 7),
    must!(40, 8),
    must!(38, 9),
    may!(44, 10),
    may!(59, 11),
];

// OrderCancelRequest
pub(crate) static CANCEL: [Row; 6] = [
    must!(11, 5),
    must!(55, 6),
    must!(54, 7),
    must!(38, 9),
    may!(37, 18),
    must!(41, 30),
];

// OrderCancelReplaceRequest
pub(crate) static REPLACE: [Row; 9] = [
    must!(11, 5),
    must!(55, 6),
    must!(54, 7),
    must!(40, 8),
    must!(38, 9),
    may!(44, 10),
    may!(59, 11),
    may!(37, 18),
    must!(41, 30),
];
