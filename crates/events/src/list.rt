// A list of events run one after the other, on a book that keeps its rules. Rests on `take` and words.
ghost use Rattle.std.specs.Prelude.{◌≡◌, ◌≤◌, true, length, Some, None};
ghost use Rattle.prelude.specs.Cases.{if◌then◌otherwise◌};
ghost use Rattle.prelude.specs.Number.{Bytes, word16};
ghost use Rattle.prelude.specs.Refusal.{number_of};
ghost use Rattle.rules.specs.Keeps.{keeps_of};
ghost use Rattle.events.specs.Events.{has_whole, records_in, most_said, run, begun, many, refusing, ran};
ghost use Rattle.events.specs.Laws.Said.{Says};

use crate::{Ran, take};
use machine::Change;
use orders::change::NOTHING;
use prelude::Refusal;
use records::zeros::NO_RECORD;
use records::{Record, SHORTEST_ANSWER};
use words::get16;

// What is said of an event at most: a byte for its refusal, and its answer.
pub(crate) const MOST_SAID: usize = 1 + SHORTEST_ANSWER;

// What a call that is refused returns.
pub(crate) fn refusing(refusal: Refusal) -> Ran
    ensures { result ≡ refusing (number_of refusal) }
{
    Ran {
        refusal: refusal.number(),
        events: 0,
        read: 0,
        written: 0,
    }
}

// The length of the record at the front, if a whole one is there.
fn whole(records: &[u8]) -> Option<usize>
    ensures { result ≡ (if has_whole records.now then Some (word16 records.now 0) otherwise None) }
{
    if records.len() < 2 {
        return None;
    }
    let length = usize::from(get16(&records[..2]));
    if length <= records.len() - 2 {
        Some(length)
    } else {
        None
    }
}

// Takes the event in `record`, and says so at the front of `answers`: a byte for its refusal and, if that is 0,
// its answer. How many bytes that is.
fn say(
    book: &mut [u8],
    record: &[u8],
    answers: &mut [u8],
    event: &mut Record,
    change: &mut Change,
) -> usize
    requires keeps { keeps_of book.old ≡ true }
    requires bytes { Bytes book.old }
    requires room { most_said ≤ length answers.old }
    ensures { Says book.old «record».now answers.old result book.new answers.new }
{
    match take(book, record, &mut answers[1..], event, change) {
        Ok(length) => {
            answers[0] = 0;
            1 + length as usize
        }
        Err(refusal) => {
            // A refusal's number fits a byte: by `as`, which is proved to lose nothing.
            answers[0] = refusal.number() as u8;
            1
        }
    }
}

// Runs the events one after the other, on a book that keeps its rules. A `while`: how far the records and the answers are used is known only once an event was run.
pub(crate) fn run(book: &mut [u8], records: &[u8], answers: &mut [u8]) -> Ran
    requires keeps { keeps_of book.old ≡ true }
    requires bytes { Bytes book.old }
    ensures { many result book.new answers.new ≡ ran answers.old (run answers.old (begun book.old) (records_in «records».now)) }
{
    let mut event = NO_RECORD;
    let mut change = NOTHING;
    let mut events = 0;
    let mut read = 0;
    let mut written = 0;
    while MOST_SAID <= answers.len() - written {
        let Some(length) = whole(&records[read..]) else {
            break;
        };
        let record = &records[read + 2..read + 2 + length];
        written += say(
            book,
            record,
            &mut answers[written..],
            &mut event,
            &mut change,
        );
        read += 2 + length;
        events += 1;
    }
    Ran {
        refusal: 0,
        events,
        read: read as u64,
        written: written as u64,
    }
}
