// The writer: the questions first, then the length, then the bytes. Rests on records' `parts`, `room`
// and `put`. Lengths are u64 in the message and for C, and a bit's number is a u32 in bits: by `as`,
// which is proved to lose nothing: std has no From between them and usize. As a
// u8 a bit would be turned at each index of the parts instead.
ghost use Rattle.std.specs.Prelude.{◌≡◌, ℕ, Some, IfOk, IfErr, ◌+◌, ◌-◌, ◌≤◌, ◌<◌, length, get_or};
ghost use Rattle.prelude.specs.Refusal.{number_of};
ghost use Rattle.prelude.specs.Span.{splice};
ghost use Rattle.fix_words.specs.Message.{is_text, texted};
ghost use Rattle.fix_words.specs.Record.{session, writing_of, write_refusal, write_of};
ghost use Rattle.fix.specs.Laws.Plan.{Parted, text_right, texts_right, less_by, inner_long, Decided};
ghost use Rattle.fix_table.specs.Table.{form_of};
ghost use Rattle.fix_table.specs.declared.Form.TheVariants.{Text};
ghost use Rattle.fix_claims.specs.Call.{wrote, write_call};

use crate::session::Session;
use crate::value::text_place;
use crate::{put, room};
use fix_claims::Written;
use fix_table::{Form, form_of};
use prelude::Refusal;
use records::parts::{Parts, message_parts};

// What is decided before a byte is written: the record's parts and the body's length.
#[derive(Clone, Copy)]
struct Plan {
    pub parts: Parts,
    pub body: u64,
}

// Whether a text has bytes, and none below 32.
fn is_text(s: &[u8]) -> bool
    ensures { result ≡ is_text s.now }
{
    !s.is_empty() && s.iter().all(|c| b' ' <= *c)
}

// The same of bit b, if it is a text and stands.
#[tactic(auto, using(fix_table::specs::Laws::Choices::choices, crate::specs::Laws::Whole::form_text, crate::specs::Laws::Whole::form_other, prelude::specs::Laws::Span::part_span), unfolding(crate::specs::Laws::Plan::text_right))]
fn text_right(s: &[u8], parts: &Parts, b: usize) -> bool
    requires { (b < 32) × (form_of b ≡ Text → (get_or parts.now.at (b + 1) 0 - get_or parts.now.numbers b 0) + get_or parts.now.numbers b 0 ≤ length s.now) }
    ensures { result ≡ text_right s.now parts.now.map (get_or parts.now.at (b + 1) 0) (get_or parts.now.numbers b 0) b }
{
    match form_of(b) {
        Form::Text => {
            if !bits::has(parts.map, b as u32) {
                return true;
            }
            let (from, count) = text_place(parts.at[b + 1], parts.numbers[b]);
            is_text(&s[from..from + count])
        }
        _ => true,
    }
}

// Of all bits.
#[tactic(auto, using(prelude::specs::Laws::Below::all_none, prelude::specs::Laws::Below::all_more, prelude::specs::Laws::Below::all_done), unfolding(crate::specs::Laws::Plan::texts_right))]
fn texts_right(s: &[u8], parts: &Parts) -> bool
    requires { (b : ℕ) → b < 32 → form_of b ≡ Text → (get_or parts.now.at (b + 1) 0 - get_or parts.now.numbers b 0) + get_or parts.now.numbers b 0 ≤ length s.now }
    ensures { result ≡ texts_right s.now parts.now.map parts.now.at parts.now.numbers }
{
    (0..32).all(|b| text_right(s, parts, b))
}

// Whether FIX can carry every text, of the session and of the record.
#[tactic(auto, using(crate::specs::Laws::Whole::texts_right_lem, crate::specs::Laws::Whole::and_assoc), unfolding(fix_words::specs::Message::texted))]
fn texted(record: &[u8], header: &Session, parts: &Parts) -> bool
    requires { Parted «record».now parts.now.map parts.now.at parts.now.numbers parts.now.high }
    ensures { result ≡ texted (writing_of «record».now header.now) }
{
    is_text(header.sender)
        && is_text(header.target)
        && is_text(header.time)
        && texts_right(record, parts)
}

// The room behind what 9 counts.
#[tactic(auto, using(crate::specs::Laws::Putting::less_three), unfolding(crate::specs::Laws::Plan::inner_long))]
fn inside(room: usize, header: &Session, kind: u8, parts: &Parts) -> Option<usize>
    ensures { result ≡ less_by (Some room) (inner_long (length header.now.sender) (length header.now.target) header.now.sequence (length header.now.time) kind parts.now.map parts.now.at parts.now.numbers parts.now.high) }
{
    let head = room::less_head(Some(room), header);
    let body = room::less_body(head, kind, parts);
    room::less_stamp(body, kind, header.time.len())
}

// The questions, in their order, and the length.
fn decide(record: &[u8], header: &Session, room: usize) -> Result<Plan, Refusal>
    ensures ok { IfOk result (Decided «record».now header.now room) }
    ensures err { IfErr result (λ r. number_of r ≡ write_refusal «record».now header.now room) }
{
    let parts = message_parts(record)?;
    if !texted(record, header, &parts) {
        return Err(Refusal::BadText);
    }
    let left = inside(room, header, record[0], &parts);
    let rest = left.ok_or(Refusal::NoRoom)?;
    let body = (room - rest) as u64;
    room::less_frame(left, body).ok_or(Refusal::NoRoom)?;
    Ok(Plan { parts, body })
}

// The whole message, which has room.
fn put_message(out: &mut [u8], record: &[u8], header: &Session, p: &Plan) -> usize
    requires { Decided «record».now header.now (length out.old) p.now }
    ensures { (result ≡ length (write_of «record».now header.now)) × (out.new ≡ splice out.old 0 (write_of «record».now header.now)) }
{
    let kind = record[0];
    let a = put::put_first(out, p.body);
    let b = put::put_head(out, a, kind, header);
    let c = put::put_body(out, b, record, kind, &p.parts);
    let d = put::put_stamp(out, c, kind, header.time);
    put::put_trailer(out, d)
}

// Writes the message of a record. No `From`: `Written` is fix_claims', a crate that has no code.
pub(crate) fn write(record: &[u8], header: &Session, out: &mut [u8]) -> Written
    ensures { wrote result out.new ≡ write_call «record».now header.now out.old }
{
    match decide(record, header, out.len()) {
        Ok(plan) => {
            let end = put_message(out, record, header, &plan);
            Written {
                refusal: 0,
                length: end as u64,
            }
        }
        Err(refusal) => Written {
            refusal: refusal.number(),
            length: 0,
        },
    }
}
