// Where the fields of a record start, and what each may hold: the part that others may call. Past the
// last field stands one that takes nothing and holds anything; a record that starts past 65,535 has
// no places. Rests on `walk` and `reader`.
#![tactic(auto)]

ghost use Rattle.std.specs.Prelude.{◌≡◌, ℕ, ◌<◌, ◌-◌, ◌≤◌, length, get_or};
ghost use Rattle.format.specs.Format.{in_range, size, range, is_text_bit};
ghost use Rattle.places.specs.Ranges.{taken, is_text, holds};
ghost use Rattle.places.specs.Starts.{start_from};

mod range;
mod reader;
mod walk;

use crate::range::{List, Range};
use format::codes;

// How much a field takes: a length byte and as many bytes, or so many bytes.
#[derive(Clone, Copy)]
enum Size {
    Text,
    Bytes(u8),
}

#[derive(Clone, Copy)]
struct Field {
    size: Size,
    range: Range,
}

macro_rules! text {
    ($range:expr) => {
        Field {
            size: Size::Text,
            range: $range,
        }
    };
}

macro_rules! bytes {
    ($size:expr, $range:expr) => {
        Field {
            size: Size::Bytes($size),
            range: $range,
        }
    };
}

// Past the last field.
const NONE: Field = bytes!(0, Range::Any);

// What each field takes and may hold. A static: a constant would be built on the stack at each access.
static FIELDS: [Field; 32] = [
    bytes!(2, Range::Any),
    bytes!(2, Range::Any),
    text!(Range::Between(1, 20)), // order name
    text!(Range::Between(1, 32)), // ClOrdID
    text!(Range::Between(1, 32)), // OrigClOrdID
    text!(Range::Between(1, 32)), // downstream ClOrdID
    text!(Range::Between(1, 16)), // symbol
    bytes!(1, Range::Code(List::Side)),
    bytes!(1, Range::Code(List::OrdType)),
    bytes!(8, Range::UpTo(codes::MOST_QTY)),
    bytes!(8, Range::UpTo(codes::MOST_PRICE)),
    bytes!(1, Range::Code(List::TimeInForce)),
    bytes!(1, Range::Code(List::ExecType)),
    bytes!(1, Range::Code(List::Status)),
    bytes!(8, Range::UpTo(codes::MOST_QTY)), // LastQty
    bytes!(8, Range::UpTo(codes::MOST_PRICE)), // LastPx
    bytes!(8, Range::UpTo(codes::MOST_QTY)), // CumQty
    bytes!(8, Range::UpTo(codes::MOST_PRICE)), // AvgPx
    text!(Range::UpTo(32)), // venue OrderID
    bytes!(4, Range::Any),
    text!(Range::Between(1, 64)), // text
    bytes!(0, Range::Any),
    bytes!(0, Range::Any),
    bytes!(1, Range::UpTo(7)), // verdict
    bytes!(8, Range::UpTo(codes::MOST_QTY)), // LeavesQty
    bytes!(8, Range::Any),
    bytes!(16, Range::Any),
    bytes!(1, Range::Between(1, 18)), // fixed text
    bytes!(1, Range::Between(1, 2)), // reason's origin
    bytes!(1, Range::Between(1, 2)), // response-to
    text!(Range::Between(1, 32)), // original downstream
    bytes!(1, Range::UpTo(3)), // source of the fill price
];

// What the table has of field b.
fn field_of(b: usize) -> Field
    ensures size { taken result.size ≡ size b }
    ensures text { is_text result.size ≡ is_text_bit b }
    ensures range { (v : ℕ) → holds result.range v ≡ in_range (range b) v }
{
    FIELDS.get(b).copied().unwrap_or(NONE)
}

// Whether field b is a text.
pub fn is_text(b: usize) -> bool
    ensures { result ≡ is_text_bit b }
{
    matches!(field_of(b).size, Size::Text)
}

// The bytes of field b, or 255 for a text: that is what it promises, and `is_text` says it more plainly.
pub fn size_of(b: usize) -> usize
    ensures { (result ≡ size b) × (result ≤ 255) × (result < 255 → result ≤ 16) }
{
    match field_of(b).size {
        Size::Text => 255,
        Size::Bytes(n) => usize::from(n),
    }
}

// Whether field b may hold a number, or a text of this length.
pub fn may_hold(b: usize, v: u64) -> bool
    ensures { result ≡ in_range (range b) v }
{
    field_of(b).range.has(v)
}

// How many bytes stand from a position on.
pub fn left_at(s: &[u8], at: usize) -> usize
    ensures { result ≡ length s.now - at }
{
    reader::left_at(s, at)
}

// Where each field of the record at o starts, and at 32 where it ends. Zeros, and no Option, for a record that
// starts past 65,535: that is what it promises.
pub fn starts(s: &[u8], map: u32, o: usize) -> [usize; 33]
    ensures { (k : ℕ) → k ≤ 32 → get_or result k 0 ≡ start_from s.now o map k }
{
    if 65535 < o {
        return [0; 33];
    }
    walk::starts(s, map, o)
}
