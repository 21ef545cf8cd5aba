// Events and messages: the record, read and written. Rests on format and places; the modules `shape`,
// `fields`, `scan`, `take` and `put` do the work, `parts` gives a message in place, and `cut` says where a
// message of an answer stands.
#![tactic(auto)]

ghost use Rattle.std.specs.Prelude.{◌≡◌, true, false, ◌<◌, ◌+◌, ◌≤◌, leb, length, IfOk, IfErr};
ghost use Rattle.prelude.specs.Span.{splice};
ghost use Rattle.prelude.specs.Cases.{if◌then◌otherwise◌};
ghost use Rattle.prelude.specs.Refusal.{number_of};
ghost use Rattle.prelude.specs.declared.Refusal.TheVariants.{OutOfRange};
ghost use Rattle.format.specs.Refusal.{name_in, ranged, event_refusal};
ghost use Rattle.records.specs.Record.{record_bytes, record_at, event_in};
ghost use Rattle.records.specs.Laws.Seen.{Numbered, MessagesIn, refusal_from};
ghost use Rattle.records.specs.Answer.{head_size, shortest_answer, head_bytes, messages_bytes, answer_bytes, chosen, count_in, answer_refusal, messages_of, ReadsAnswer};

use format::{bit, codes};
use prelude::{Refusal, Terms, Text};

pub mod cut;
mod fields;
pub mod parts;
mod put;
mod scan;
mod shape;
mod take;
pub mod zeros;

use shape::Shape;
use zeros::NO_RECORD;

// The head of an answer: its length in 2 bytes, how many messages, the alarm, the second alarm.
pub const HEAD: usize = 5;

// The shortest answer buffer that is taken.
pub const SHORTEST_ANSWER: usize = 1024;

const COUNT: usize = 2;

const ALARM: usize = 3;

const ALARM2: usize = 4;

// A text of at most 64 bytes: the bytes, zeros after the text, and its length. It is a type of its own beside
// `Text`, which docs/SCOPE.md names and which has 32 bytes: one type for both would change everything that
// names `Text`.
#[derive(Clone, Copy)]
pub struct LongText {
    pub bytes: [u8; 64],
    pub len: u8,
}

// What a record holds, in parts. Codes are bytes of the format, in which any may stand; the map says which
// fields stand, and functions take a Record whatever it holds.

// The names in a record: bits 2 to 6, 18 and 30.
#[derive(Clone, Copy)]
pub struct Ids {
    pub name: Text,
    pub clordid: Text,
    pub origclordid: Text,
    pub downstream: Text,
    pub symbol: Text,
    pub venueorderid: Text,
    pub origdownstream: Text,
}

// What a venue reported: bits 12 to 17.
#[derive(Clone, Copy)]
pub struct Exec {
    pub exectype: u8,
    pub status: u8,
    pub lastqty: u64,
    pub lastpx: u64,
    pub cumqty: u64,
    pub avgpx: u64,
}

// What only messages have: bits 24 to 29 and 31. The fill price is two words, as in wide.
#[derive(Clone, Copy)]
pub struct Told {
    pub leavesqty: u64,
    pub execseq: u64,
    pub fillprice: [u64; 2],
    pub fixedtext: u8,
    pub origin: u8,
    pub responseto: u8,
    pub source: u8,
}

// A record: an event (kinds 1 to 9) or a message (kinds 16 to 20). A field whose bit does not
// stand in the map is zero; bits 21 and 22, redelivered and blocked, have no field.
#[derive(Clone, Copy)]
pub struct Record {
    pub kind: u8,
    pub map: u32,
    pub client: u16,
    pub venue: u16,
    pub reason: u32,
    pub verdict: u8,
    pub ids: Ids,
    pub terms: Terms,
    pub exec: Exec,
    pub told: Told,
    pub text: LongText,
}

// The messages of an answer, at most two.
#[derive(Clone, Copy)]
pub enum Messages {
    Nothing,
    One(Record),
    Two(Record, Record),
}

impl Messages {
    // How many they are.
    pub fn count(&self) -> u32
        ensures { result ≡ length (messages_of self.now) }
    {
        match self {
            Messages::Nothing => 0,
            Messages::One(_) => 1,
            Messages::Two(_, _) => 2,
        }
    }
}

// An answer that was read, or is to be written; its alarms are bytes of the format, too.
#[derive(Clone, Copy)]
pub struct Answer {
    pub alarm: u8,
    pub alarm2: u8,
    pub messages: Messages,
}

fn name_in_map(map: u32, name: Text) -> bool
    ensures { result ≡ name_in map name }
{
    !bits::has(map, bit::NAME) || format::name_ok(name)
}

// The numbers in the fields of a record, if each field is in its range.
fn numbers_in(shape: &Shape<'_>, numbers: &mut [u64; 32]) -> Result<(), Refusal>
    ensures ok { IfOk result (λ done. Numbered shape.now.bytes.now shape.now.start numbers.new) }
    ensures err { IfErr result (λ r. (ranged shape.now.bytes.now shape.now.start ≡ false) × (r ≡ OutOfRange)) }
{
    scan::values(shape, numbers)?;
    let name = take::text_in(shape.field(bit::NAME));
    if name_in_map(shape.map, name) {
        Ok(())
    } else {
        Err(Refusal::OutOfRange)
    }
}

// Puts the record that has this shape where it is lent, if each of its fields is in its range.
fn put_record_in(shape: &Shape<'_>, record: &mut Record) -> Result<(), Refusal>
    ensures ok { IfOk result (λ done. (ranged shape.now.bytes.now shape.now.start ≡ true) × («record».new ≡ record_at shape.now.bytes.now shape.now.start)) }
    ensures err { IfErr result (λ r. (ranged shape.now.bytes.now shape.now.start ≡ false) × (r ≡ OutOfRange) × («record».new ≡ «record».old)) }
{
    let mut numbers = [0u64; 32];
    numbers_in(shape, &mut numbers)?;
    take::put_built(shape, &numbers, record);
    Ok(())
}

// The record that has this shape, if each of its fields is in its range.
fn record_in(shape: &Shape<'_>) -> Result<Record, Refusal>
    ensures ok { IfOk result (λ r. (ranged shape.now.bytes.now shape.now.start ≡ true) × (r ≡ record_at shape.now.bytes.now shape.now.start)) }
    ensures err { IfErr result (λ r. (ranged shape.now.bytes.now shape.now.start ≡ false) × (r ≡ OutOfRange)) }
{
    let mut record = NO_RECORD;
    put_record_in(shape, &mut record)?;
    Ok(record)
}

// An event, from a slice that is one whole record, to where it is lent: a record is large, and the next thing is
// to handle it.
pub fn read_event(s: &[u8], event: &mut Record) -> Result<(), Refusal>
    ensures ok { IfOk result (λ done. (event_refusal s.now ≡ 0) × (event.new ≡ event_in s.now)) }
    ensures err { IfErr result (λ r. (number_of r ≡ event_refusal s.now) × (event.new ≡ event.old)) }
{
    let shape = Shape::new(s, 0)?;
    if codes::EVENT_GATEWAY_CANCEL < shape.kind() || shape.end() != s.len() {
        return Err(Refusal::BadRecord);
    }
    put_record_in(&shape, event)
}

// Writes a record at o, and returns the position after it.
fn put_record(dst: &mut [u8], o: usize, r: &Record) -> usize
    requires { o + length (record_bytes r.now) ≤ length dst.old }
    ensures { (result ≡ o + length (record_bytes r.now)) × (dst.new ≡ splice dst.old o (record_bytes r.now)) }
{
    dst[o] = r.kind;
    let p = fields::put_number(dst, o + 1, u64::from(r.map), 4);
    put::put_fields(dst, p, r)
}

// Writes the head of an answer that ends at n.
fn put_head(dst: &mut [u8], n: usize, count: u8, alarm: u8, alarm2: u8)
    requires { head_size ≤ length dst.old }
    ensures { dst.new ≡ splice dst.old 0 (head_bytes n count alarm alarm2) }
{
    // By `as`: std has no `From<usize>` for u64.
    fields::put_number(dst, 0, n as u64, COUNT);
    dst[COUNT..HEAD].copy_from_slice(&[count, alarm, alarm2]);
}

// Writes none, the first or both behind a head, and returns where they end.
fn put_chosen(dst: &mut [u8], count: u8, first: &Record, second: &Record) -> usize
    requires { shortest_answer ≤ length dst.old }
    ensures { (result ≡ head_size + length (messages_bytes (chosen count first.now second.now))) × (dst.new ≡ splice dst.old head_size (messages_bytes (chosen count first.now second.now))) }
{
    match count {
        0 => HEAD,
        1 => put_record(dst, HEAD, first),
        _ => {
            let p = put_record(dst, HEAD, first);
            put_record(dst, p, second)
        }
    }
}

// Writes messages behind a head, and returns where they end.
fn put_messages(dst: &mut [u8], messages: &Messages) -> usize
    requires { shortest_answer ≤ length dst.old }
    ensures { (result ≡ head_size + length (messages_bytes (messages_of messages.now))) × (dst.new ≡ splice dst.old head_size (messages_bytes (messages_of messages.now))) }
{
    match messages {
        Messages::Nothing => HEAD,
        Messages::One(first) => put_chosen(dst, 1, first, first),
        Messages::Two(first, second) => put_chosen(dst, 2, first, second),
    }
}

// Writes an answer, and returns its length; writes nothing, and returns 0, if the buffer is shorter than
// `SHORTEST_ANSWER`. 0 and no Result: `write_answer`, which C's answers go through, promises 0, and would turn the
// Result back.
pub fn write(answer: &mut [u8], read: &Answer) -> u32
    ensures { (result ≡ (if leb shortest_answer (length answer.old) then length (answer_bytes read.now.alarm read.now.alarm2 (messages_of read.now.messages)) otherwise 0)) × (answer.new ≡ (if leb shortest_answer (length answer.old) then splice answer.old 0 (answer_bytes read.now.alarm read.now.alarm2 (messages_of read.now.messages)) otherwise answer.old)) }
{
    if answer.len() < SHORTEST_ANSWER {
        return 0;
    }
    let end = put_messages(answer, &read.messages);
    // A count is at most 2, and an answer has at most `SHORTEST_ANSWER` bytes: `as`, here and in
    // `write_answer`, is proved to lose nothing.
    let count = read.messages.count() as u8;
    put_head(answer, end, count, read.alarm, read.alarm2);
    end as u32
}

// Writes an answer of at most two messages, as `write` does. It takes a count with two records, as the first
// version did: any byte may stand in the count. The records are lent: an answer's `Messages` would be a copy of
// both.
pub fn write_answer(
    answer: &mut [u8],
    alarm: u8,
    alarm2: u8,
    count: u8,
    first: &Record,
    second: &Record,
) -> u32
    ensures { (result ≡ (if leb shortest_answer (length answer.old) then length (answer_bytes alarm alarm2 (chosen count first.now second.now)) otherwise 0)) × (answer.new ≡ (if leb shortest_answer (length answer.old) then splice answer.old 0 (answer_bytes alarm alarm2 (chosen count first.now second.now)) otherwise answer.old)) }
{
    if answer.len() < SHORTEST_ANSWER {
        return 0;
    }
    let end = put_chosen(answer, count, first, second);
    put_head(answer, end, count.min(2), alarm, alarm2);
    end as u32
}

// The one message behind the head of an answer.
fn read_one(a: &[u8]) -> Result<Messages, Refusal>
    ensures ok { IfOk result (MessagesIn a.now 1) }
    ensures err { IfErr result (λ r. number_of r ≡ refusal_from a.now 1) }
{
    let first = Shape::of_message(a, HEAD)?;
    if first.end() != a.len() {
        return Err(Refusal::BadRecord);
    }
    Ok(Messages::One(record_in(&first)?))
}

// The two messages behind the head of an answer. The shapes of both come before a range of one.
fn read_two(a: &[u8]) -> Result<Messages, Refusal>
    requires { length a.now < 65536 }
    ensures ok { IfOk result (MessagesIn a.now 2) }
    ensures err { IfErr result (λ r. number_of r ≡ refusal_from a.now 2) }
{
    let first = Shape::of_message(a, HEAD)?;
    let second = Shape::of_message(a, first.end())?;
    if second.end() != a.len() {
        return Err(Refusal::BadRecord);
    }
    Ok(Messages::Two(record_in(&first)?, record_in(&second)?))
}

// The messages behind the head of an answer that says how many they are.
fn read_messages(a: &[u8], count: u8) -> Result<Messages, Refusal>
    requires { length a.now < 65536 }
    ensures ok { IfOk result (λ ms. (count ≤ 2) × MessagesIn a.now count ms) }
    ensures err { IfErr result (λ r. number_of r ≡ (if leb count 2 then refusal_from a.now count otherwise 3)) }
{
    match count {
        0 if a.len() == HEAD => Ok(Messages::Nothing),
        1 => read_one(a),
        2 => read_two(a),
        _ => Err(Refusal::BadRecord),
    }
}

// An answer, from the front of a slice: bytes past its length are not looked at.
pub fn read_answer(s: &[u8]) -> Result<Answer, Refusal>
    ensures ok { IfOk result (ReadsAnswer s.now) }
    ensures err { IfErr result (λ r. number_of r ≡ answer_refusal s.now) }
{
    if s.len() < HEAD {
        return Err(Refusal::BadRecord);
    }
    let n = usize::from(words::get16(&s[..2]));
    if n < HEAD || s.len() < n {
        return Err(Refusal::BadRecord);
    }
    let messages = read_messages(&s[..n], s[COUNT])?;
    Ok(Answer {
        alarm: s[ALARM],
        alarm2: s[ALARM2],
        messages,
    })
}
