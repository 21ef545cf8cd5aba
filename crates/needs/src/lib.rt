// What an event will need, before it is taken: its refusal, or the length of its answer, how many
// message and request records it adds, and how many fields each message has. The change is step's,
// the one that `event` writes; here it is counted. Nothing that is lent is written. Rests on step,
// records and bits.
#![tactic(auto)]

ghost use Rattle.std.specs.Prelude.{◌≡◌};
ghost use Rattle.records.specs.Answer.{chosen};
ghost use Rattle.needs.specs.Needs.{refused, answer_length, field_count, added_count, needed, needs_call};

use machine::Output;
use records::Record;

// The refusal, or 0 and the event's needs. With a refusal all else is 0. The C structure has all fields.
#[repr(C)]
#[derive(Clone, Copy, Default)]
pub struct Needs {
    pub refusal: u32,
    pub length: u32,
    pub messages: u32,
    pub requests: u32,
    pub fields_first: u32,
    pub fields_second: u32,
}

// The answer buffer that the event is asked about.
const ANSWER: usize = records::SHORTEST_ANSWER;

#[tactic(auto, unfolding(crate::specs::Needs::refused))]
fn refused(refusal: u32) -> Needs
    ensures { result ≡ refused refusal }
{
    Needs {
        refusal,
        ..Needs::default()
    }
}

// The length of the answer, as its writer gives it.
fn answer_length(out: Output) -> u32
    ensures { result ≡ answer_length (chosen out.count out.first out.second) }
{
    let mut answer = [0u8; ANSWER];
    records::write_answer(
        &mut answer,
        out.alarm,
        out.alarm2,
        out.count,
        &out.first,
        &out.second,
    )
}

// How many fields a message has: one for each bit of its map.
#[tactic(auto, unfolding(crate::specs::Needs::field_count))]
fn field_count(m: Record) -> u32
    ensures { result ≡ field_count m }
{
    bits::standing(m.map)
}

#[tactic(auto, unfolding(crate::specs::Needs::added_count), using(prelude::specs::Laws::Cases::if_true, prelude::specs::Laws::Cases::if_false))]
fn added_count(added: u8) -> u32
    ensures { result ≡ added_count added }
{
    u32::from(added != 0)
}

// The needs of an event that is taken, puts this out and adds a request or none. `count` is the number that
// `records::write_answer` takes beside two records, and so no `Messages`.
#[tactic(auto, using(crate::specs::Laws::Needs::counted))]
fn needed(out: Output, added: u8) -> Needs
    ensures { result ≡ needed (chosen out.count out.first out.second) added }
{
    let length = answer_length(out);
    let requests = added_count(added);
    let (messages, fields_first, fields_second) = match out.count {
        0 => (0, 0, 0),
        1 => (1, field_count(out.first), 0),
        _ => (2, field_count(out.first), field_count(out.second)),
    };
    Needs {
        refusal: 0,
        length,
        messages,
        requests,
        fields_first,
        fields_second,
    }
}

// What the event in `record` will need on this book.
#[tactic(auto, using(step::specs::Laws::Taken::numbered, crate::specs::Laws::Needs::called), unfolding(machine::specs::Changes::refusing))]
pub fn needs_of(book: &[u8], record: &[u8]) -> Needs
    ensures { result ≡ needs_call book.now «record».now }
{
    match step::call_of(book, record, ANSWER) {
        Ok(c) => needed(c.output, c.requests.added),
        Err(refusal) => refused(refusal.number()),
    }
}
