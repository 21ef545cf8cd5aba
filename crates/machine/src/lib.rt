// The machine: what an event does to the book, as definitions in specs/, and the types that they
// need beside the records' and the book's. No code. Codes, reasons, texts and alarms are the numbers
// that records have, in which any byte may stand. Rests on records, store, text and wide.
#![tactic(auto)]

use prelude::Text;
use records::{LongText, Record};
use store::{Order, Request};

// What the handling of an event needs of the book beside its order: the order's link (its index
// and one, 0 for no order), how many requests are in use, and the order's latest cancel (all zero
// if there is none). Zeros stand for none, as in the book's records: the definitions read these
// fields, and the theorems name them. The order stands beside them and not among them, since it changes
// on the way while they stay, and the definitions take the two one by one.
#[derive(Clone, Copy)]
pub struct Findings {
    pub place: u16,
    pub requests: u16,
    pub cancel: Request,
}

// What a message says beside the order's state: a text, or the number of a fixed one, and a reason
// with its origin: 1 for ours, 2 for the venue's. What is 0 or empty is not said, as in the records that
// the definitions make of it: the theorems name these fields.
#[derive(Clone, Copy)]
pub struct Note {
    pub text: LongText,
    pub fixedtext: u8,
    pub reason: u32,
    pub origin: u8,
}

// What a client is told of a cancel or replace that is refused: the reason and the number of the
// text. The text is 0 if it is not refused: a number that the definitions read and the theorems name.
// In code amend's `Why`, in a `Result`, stands for it until the client is told.
#[derive(Clone, Copy)]
pub struct Reject {
    pub reason: u32,
    pub fixedtext: u8,
}

// A refusal of a cancel or replace that was sent (the Rust's `Refused`): the order's status as the
// venue gives it and the venue's OrderID, what the client is told, and what the request comes to. 0 and
// empty if not given, as the record has them: the definitions read these fields, and the theorems name them.
#[derive(Clone, Copy)]
pub struct Refused {
    pub status: u8,
    pub venueorderid: Text,
    pub note: Note,
    pub outcome: u8,
}

// What an event does to the requests: the links of those that it answers, 0 for none; what these come to, 0
// if there are none; and the one that it adds, if the flag `added` is 1. All are numbers, since the
// definitions and their theorems name each field (`requests.added ≡ 0`).
#[derive(Clone, Copy)]
pub struct Requests {
    pub answered: u16,
    pub superseded: u16,
    pub outcome: u8,
    pub added: u8,
    pub request: Request,
}

// What an event puts out: up to two messages, as a count with two records, and up to two alarms, 0 for
// none. The bytes of an answer have them so, the definitions read these fields, and the theorems name them.
#[derive(Clone, Copy)]
pub struct Output {
    pub count: u8,
    pub first: Record,
    pub second: Record,
    pub alarm: u8,
    pub alarm2: u8,
}

// What an event does. The order as it is left goes to the place that the link names: 0 is none,
// and one past those in use is a new order. If the refusal is not 0 the event is not taken: a number,
// since the definitions and their theorems name the field. In code a change is lent to be written, since it is
// large; a `Result` stands beside it, and the number is 0. A struct with a ghost field would say so once in place of
// seven clauses, but the forty functions and more that make a change on the way would each have to prove it.
#[derive(Clone, Copy)]
pub struct Change {
    pub refusal: u8,
    pub place: u16,
    pub order: Order,
    pub requests: Requests,
    pub output: Output,
}
