// Where message n of an answer stands, so that a host can cut it out: an answer's messages have no
// lengths of their own. Rests on this crate's reader and on places.
ghost use Rattle.std.specs.Prelude.{◌≡◌, ◌+◌, ◌<◌, ◌≤◌, length};
ghost use Rattle.format.specs.Places.{end_of};
ghost use Rattle.records.specs.Place.{place_of, nowhere, stands};
ghost use Rattle.records.specs.Answer.{count_in, answer_refusal};

use crate::HEAD;

// The refusal, or 0 and where the message starts in the answer, with its length. Zeros with a
// refusal; length 0 if the answer has no such message. The C structure has all three fields.
#[repr(C)]
#[derive(Clone, Copy)]
pub struct Place {
    pub refusal: u32,
    pub at: u32,
    pub length: u32,
}

fn nowhere(refusal: u32) -> Place
    ensures { result ≡ nowhere refusal }
{
    Place {
        refusal,
        at: 0,
        length: 0,
    }
}

// Where the record at o ends. By its map: a `Shape` would ask the record's shape again. That o is below 65,536
// stands in the contract, as at each position here and in places: a type for it would be made and taken apart at
// each call.
fn end_at(s: &[u8], o: usize) -> usize
    requires { (o < 65536) × (o + 5 ≤ length s.now) }
    ensures { result ≡ end_of s.now o }
{
    let p = o + 1;
    let map = words::get32(&s[p..p + 4]);
    let at = places::starts(s, map, o);
    at[32]
}

// Both are below 65,536, so `as` is proved to lose nothing.
fn between(from: usize, to: usize) -> Place
    requires { (from ≤ to) × (to < 65536) }
    ensures { result ≡ stands from to }
{
    Place {
        refusal: 0,
        at: from as u32,
        length: (to - from) as u32,
    }
}

// Where message n of an answer stands, which has one.
fn place_in(answer: &[u8], n: u32) -> Place
    requires { (answer_refusal answer.now ≡ 0) × (n < count_in answer.now) }
    ensures { result ≡ place_of answer.now n }
{
    let long = usize::from(words::get16(&answer[..2]));
    let a = &answer[..long];
    let first = end_at(a, HEAD);
    if n == 0 {
        return between(HEAD, first);
    }
    between(first, end_at(a, first))
}

// Where message n of an answer stands, counted from 0. No `From`: an answer without message n is no refusal, so
// it is three cases.
pub fn message_at(answer: &[u8], n: u32) -> Place
    ensures { result ≡ place_of answer.now n }
{
    match crate::read_answer(answer) {
        Ok(read) if n < read.messages.count() => place_in(answer, n),
        Ok(_) => nowhere(0),
        Err(refusal) => nowhere(refusal.number()),
    }
}
