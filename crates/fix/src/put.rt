// A message's fields, written into a slice that has room for them. The slice, where to write and what come
// one by one, as decimal's functions take them. The contracts say where each field ends by `at`; the methods of a
// cursor would say the same of its field, and each caller names the place where the next one goes: no plainer.
// Rests on `value`, fix_table and decimal.
ghost use Rattle.std.specs.Prelude.{◌≡◌, Some, [], ◌∷◌, ◌++◌, ℕ, ◌+◌, ◌≤◌, ◌<◌, length};
ghost use Rattle.prelude.specs.Span.{span, splice};
ghost use Rattle.decimal.specs.Decimal.{digits, decimal};
ghost use Rattle.fix_words.specs.Spelling.{field, spellings};
ghost use Rattle.fix_words.specs.Values.{rows};
ghost use Rattle.fix_words.specs.Message.{sum, trailer};
ghost use Rattle.fix.specs.Laws.Plan.{said_by, long_of, field_long, field_shown, rows_long, rows_shown, planned, first_two, head_fields, stamp_fields, Sound};

use crate::session::Session;
use crate::value::{Value, value_at};
use decimal::digits::Digits;
use fix_table::spoken::fixed_text;
use records::parts::Parts;

// The bytes of a text, written at `at`. It gives where they end. Byte by byte: for `copy_from_slice` of two slices the
// compiler calls `memmove`, which the archive would ask of its host.
#[tactic(auto, using(prelude::specs::Laws::Span::copy_all))]
fn put_bytes(out: &mut [u8], at: usize, text: &[u8]) -> usize
    requires { at + length text.now ≤ length out.old }
    ensures { (result ≡ at + length text.now) × (out.new ≡ splice out.old at text.now) }
{
    for (i, byte) in text.iter().enumerate() {
        out[at + i] = *byte;
    }
    at + text.len()
}

// A number with decimals.
#[tactic(auto, using(decimal::specs::Laws::Columns::written_room))]
fn put_decimal<N: Digits>(out: &mut [u8], at: usize, n: N, places: u8) -> usize
    requires { at + length (decimal places (N.number n)) ≤ length out.old }
    ensures { (result ≡ at + length (decimal places (N.number n))) × (out.new ≡ splice out.old at (decimal places (N.number n))) }
{
    at + decimal::put_decimal(out, at, n, places)
}

// A name, a point and a number.
#[tactic(auto, using(fix_words::specs::Laws::Counting::decimal_none, decimal::specs::Laws::Width::three))]
fn put_exec(out: &mut [u8], at: usize, name: &[u8], n: u64) -> usize
    requires { at + (length name.now + (1 + length (digits n))) ≤ length out.old }
    ensures { (result ≡ at + (length name.now + (1 + length (digits n)))) × (out.new ≡ splice out.old at (name.now ++ (46 ∷ digits n))) }
{
    let a = put_bytes(out, at, name);
    out[a] = b'.';
    put_decimal(out, a + 1, n, 0)
}

// A value. That its bytes stand in the record is asked here and of `put_field` and `put_body`: the record
// travels beside the value, and a type of both would hold the record once for each field.
#[tactic(auto, using(prelude::specs::Laws::Span::part_span, prelude::specs::Laws::Span::length_span), unfolding(crate::specs::Laws::Plan::said_by, crate::specs::Laws::Plan::long_of))]
fn put_value(out: &mut [u8], at: usize, s: &[u8], v: Value) -> usize
    requires { (Sound s.now (Some v)) × (at + long_of v ≤ length out.old) }
    ensures { (result ≡ at + long_of v) × (out.new ≡ splice out.old at (said_by s.now v)) }
{
    match v {
        Value::Bytes { from, count } => put_bytes(out, at, &s[from..from + count]),
        Value::Number { n, places } => put_decimal(out, at, n, places),
        Value::Price { low, high, places } => put_decimal(out, at, [low, high], places),
        Value::Fixed(n) => put_bytes(out, at, fixed_text(n)),
        Value::Exec {
            from,
            count,
            number,
        } => put_exec(out, at, &s[from..from + count], number),
    }
}

// A field, if it has a value: tag = value SOH. It gives where the field ends.
#[tactic(auto, using(crate::specs::Laws::Putting::field_some))]
fn put_field(out: &mut [u8], at: usize, tag: u64, s: &[u8], v: Option<Value>) -> usize
    requires { (Sound s.now v) × (at + field_long tag v ≤ length out.old) }
    ensures { (result ≡ at + field_long tag v) × (out.new ≡ splice out.old at (field_shown s.now tag v)) }
{
    let Some(value) = v else {
        return at;
    };
    let a = put_decimal(out, at, tag, 0);
    out[a] = b'=';
    let b = put_value(out, a + 1, s, value);
    out[b] = 1;
    b + 1
}

// A field whose value is a text.
#[tactic(auto, using(crate::specs::Laws::Putting::text_field, crate::specs::Laws::Putting::text_long))]
fn put_text(out: &mut [u8], at: usize, tag: u64, text: &[u8]) -> usize
    requires { at + length (spellings (field tag text.now ∷ [])) ≤ length out.old }
    ensures { (result ≡ at + length (spellings (field tag text.now ∷ []))) × (out.new ≡ splice out.old at (spellings (field tag text.now ∷ []))) }
{
    put_field(
        out,
        at,
        tag,
        text,
        Some(Value::Bytes {
            from: 0,
            count: text.len(),
        }),
    )
}

// A field whose value is a number.
#[tactic(auto, using(crate::specs::Laws::Putting::number_field, crate::specs::Laws::Putting::number_long))]
fn put_number(out: &mut [u8], at: usize, tag: u64, n: u64) -> usize
    requires { at + length (spellings (field tag (digits n) ∷ [])) ≤ length out.old }
    ensures { (result ≡ at + length (spellings (field tag (digits n) ∷ []))) × (out.new ≡ splice out.old at (spellings (field tag (digits n) ∷ []))) }
{
    put_field(out, at, tag, &[], Some(Value::Number { n, places: 0 }))
}

// 8 and 9.
pub(crate) fn put_first(out: &mut [u8], body: u64) -> usize
    requires { length (spellings (first_two body)) ≤ length out.old }
    ensures { (result ≡ length (spellings (first_two body))) × (out.new ≡ splice out.old 0 (spellings (first_two body))) }
{
    let a = put_text(out, 0, 8, b"FIX.4.4");
    put_number(out, a, 9, body)
}

// 35 to 52.
pub(crate) fn put_head(out: &mut [u8], at: usize, kind: u8, header: &Session) -> usize
    requires { at + length (spellings (head_fields kind header.now.sender header.now.target header.now.sequence header.now.time)) ≤ length out.old }
    ensures { (result ≡ at + length (spellings (head_fields kind header.now.sender header.now.target header.now.sequence header.now.time))) × (out.new ≡ splice out.old at (spellings (head_fields kind header.now.sender header.now.target header.now.sequence header.now.time))) }
{
    let letter = [fix_table::type_of(kind)];
    let a = put_text(out, at, 35, &letter);
    let b = put_text(out, a, 49, header.sender);
    let c = put_text(out, b, 56, header.target);
    let d = put_number(out, c, 34, header.sequence);
    put_text(out, d, 52, header.time)
}

// The fields of a record. The parts' four members stand one by one in its contract, and in those of `room`,
// `value` and `write`: `Parted`, `planned` and `inner_long`, which the laws of Whole and Planned name, take them
// so. Kind and parts come side by side: Parts is records' public struct, which has no kind, and the kind is a
// number, since fix_table's tables take any byte.
pub(crate) fn put_body(out: &mut [u8], start: usize, s: &[u8], kind: u8, parts: &Parts) -> usize
    requires { ((b : ℕ) → b < 32 → Sound s.now (planned kind parts.now.map parts.now.at parts.now.numbers parts.now.high b)) × (start + rows_long (rows kind) (planned kind parts.now.map parts.now.at parts.now.numbers parts.now.high) ≤ length out.old) }
    ensures { (result ≡ start + rows_long (rows kind) (planned kind parts.now.map parts.now.at parts.now.numbers parts.now.high)) × (out.new ≡ splice out.old start (rows_shown s.now (rows kind) (planned kind parts.now.map parts.now.at parts.now.numbers parts.now.high))) }
{
    let mut p = start;
    for row in fix_table::rows(kind) {
        let v = value_at(kind, parts, row.bit);
        p = put_field(out, p, row.tag, s, v);
    }
    p
}

// 60, if the kind has it.
#[tactic(auto, using(fix_table::specs::Laws::Choices::choices, prelude::specs::Laws::Span::splice_nil), unfolding(fix_words::specs::Spelling::spellings))]
pub(crate) fn put_stamp(out: &mut [u8], at: usize, kind: u8, time: &[u8]) -> usize
    requires { at + length (spellings (stamp_fields kind time.now)) ≤ length out.old }
    ensures { (result ≡ at + length (spellings (stamp_fields kind time.now))) × (out.new ≡ splice out.old at (spellings (stamp_fields kind time.now))) }
{
    if fix_table::has_stamp(kind) {
        put_text(out, at, 60, time)
    } else {
        at
    }
}

// 10, the sum of all bytes before it.
#[tactic(auto, using(crate::specs::Laws::Whole::ten_long, decimal::specs::Laws::Width::length_low))]
pub(crate) fn put_trailer(out: &mut [u8], at: usize) -> usize
    requires { at + 7 ≤ length out.old }
    ensures { (result ≡ at + 7) × (out.new ≡ splice out.old at (spellings (trailer (span out.old 0 at) ∷ []))) }
{
    let digits = fix_table::sum::sum_digits(&out[..at]);
    put_text(out, at, 10, &digits)
}
