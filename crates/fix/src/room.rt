// The room that is left in a buffer, counted down before a byte is written. The header's texts are
// subtracted one by one, since they may have any length and a sum of them could overflow; what is added up
// before is small. Counting and writing are no twins: 9 and the refusals need the lengths before the first
// byte, and one generic over a sink would need a law of each field for both sinks, where now each function
// has one contract. A room is an Option on the way in too, as the definition `less_by` takes it: so its laws join
// lengths with no case for None. Rests on `value`, fix_table and decimal.
ghost use Rattle.std.specs.Prelude.{◌≡◌, length};
ghost use Rattle.fix_words.specs.Values.{rows};
ghost use Rattle.fix.specs.Laws.Plan.{less_by, long_of, field_long, rows_long, planned, head_long, stamp_long, frame_long};

use crate::session::Session;
use crate::value::{Value, value_at};
use fix_table::spoken;
use records::parts::Parts;

// The room behind n bytes more, if they fit.
pub(crate) fn less_by(room: Option<usize>, n: usize) -> Option<usize>
    ensures { result ≡ less_by room n }
{
    room?.checked_sub(n)
}

fn less_value(room: Option<usize>, v: Value) -> Option<usize>
    ensures { result ≡ less_by room (long_of v) }
{
    match v {
        Value::Bytes { count, .. } => less_by(room, count),
        Value::Number { n, places } => less_by(room, decimal::decimal_length(n, places)),
        Value::Price { low, high, places } => {
            less_by(room, decimal::decimal_length([low, high], places))
        }
        Value::Fixed(n) => less_by(room, spoken::fixed_text(n).len()),
        Value::Exec { count, number, .. } => less_by(
            less_by(room, count),
            1 + decimal::decimal_length(number, 0),
        ),
    }
}

// A field: the tag, =, the value, SOH.
pub(crate) fn less_field(room: Option<usize>, tag: u64, v: Option<Value>) -> Option<usize>
    ensures { result ≡ less_by room (field_long tag v) }
{
    let Some(value) = v else {
        return room;
    };
    less_by(
        less_value(less_by(room, decimal::decimal_length(tag, 0)), value),
        2,
    )
}

// The fields of a record.
pub(crate) fn less_body(room: Option<usize>, kind: u8, parts: &Parts) -> Option<usize>
    ensures { result ≡ less_by room (rows_long (rows kind) (planned kind parts.now.map parts.now.at parts.now.numbers parts.now.high)) }
{
    let mut left = room;
    for row in fix_table::rows(kind) {
        let v = value_at(kind, parts, row.bit);
        left = less_field(left, row.tag, v);
    }
    left
}

// The header from 35 on: tags and ends, and the lengths of the texts.
#[tactic(auto, using(crate::specs::Laws::Putting::less_three, fix_words::specs::Laws::Counting::decimal_none), unfolding(crate::specs::Laws::Plan::head_long))]
pub(crate) fn less_head(room: Option<usize>, header: &Session) -> Option<usize>
    ensures { result ≡ less_by room (head_long (length header.now.sender) (length header.now.target) header.now.sequence (length header.now.time)) }
{
    let tags = less_by(room, 21);
    let texts = less_by(
        less_by(less_by(tags, header.sender.len()), header.target.len()),
        header.time.len(),
    );
    less_by(texts, decimal::decimal_length(header.sequence, 0))
}

// 60, if the kind has it.
#[tactic(auto, using(fix_table::specs::Laws::Choices::choices, crate::specs::Laws::Putting::less_more, crate::specs::Laws::Putting::less_none), unfolding(crate::specs::Laws::Plan::stamp_long))]
pub(crate) fn less_stamp(room: Option<usize>, kind: u8, time: usize) -> Option<usize>
    ensures { result ≡ less_by room (stamp_long kind time) }
{
    if fix_table::has_stamp(kind) {
        less_by(less_by(room, 4), time)
    } else {
        room
    }
}

// 8, 9 with the body's length, and 10.
#[tactic(auto, using(fix_words::specs::Laws::Counting::decimal_none), unfolding(crate::specs::Laws::Plan::frame_long))]
pub(crate) fn less_frame(room: Option<usize>, body: u64) -> Option<usize>
    ensures { result ≡ less_by room (frame_long body) }
{
    less_by(room, 20 + decimal::decimal_length(body, 0))
}
