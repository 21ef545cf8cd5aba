// `event` takes an event: the questions in order, the change, then the change and its answer written.
// `events` takes many in one call, each as `event` does on the book that the one before it left: that the book
// keeps its rules is asked once, since kept proves that an event leaves it so. Rests on step, index, rules,
// records, orders and words.
#![tactic(auto)]

ghost use Rattle.std.specs.Prelude.{◌≡◌, ◌≤◌, true, length, IfOk};
ghost use Rattle.prelude.specs.Counted.{counted_of};
ghost use Rattle.prelude.specs.Number.{Bytes};
ghost use Rattle.rules.specs.Keeps.{keeps_of};
ghost use Rattle.step.specs.Entries.{returned, event_of};
ghost use Rattle.events.specs.Events.{many, events_of};
ghost use Rattle.events.specs.Laws.Said.{Answered};

use machine::Change;
use orders::change::NOTHING;
use orders::order;
use prelude::Refusal;
use records::Record;
use records::zeros::NO_RECORD;
use rules::Kept;

mod list; // a list of events, run one after the other
mod write; // a change written into the book

// What a call of `events` comes to: the refusal, or 0 and how many events were run, refused ones too, how many
// bytes of the records they took, and how many bytes of the answers were written. With a refusal the numbers
// are 0. The C structure has these fields.
#[repr(C)]
#[derive(Clone, Copy)]
pub struct Ran {
    pub refusal: u32,
    pub events: u64,
    pub read: u64,
    pub written: u64,
}

// Whether the book keeps its rules; and that its bytes are bytes, which its type says here and no longer where it
// is lent on.
fn keeps(book: &[u8]) -> bool
    ensures is { result ≡ keeps_of book.now }
    ensures bytes { Bytes book.now }
{
    rules::keeps(book)
}

// Takes the event in `record` on a book that keeps its rules: the book changes, and the answer stands at the
// start of `answer`; its length. `event` and `change` are room for what the record reads as and what it comes
// to: a list of events has one room for all, since both are large, and what stands in it before does not matter.
#[tactic(auto, using(crate::specs::Laws::Entered::entered, orders::specs::Laws::Choices::choices))]
fn take(
    book: &mut [u8],
    record: &[u8],
    answer: &mut [u8],
    event: &mut Record,
    change: &mut Change,
) -> Result<u32, Refusal>
    requires keeps { keeps_of book.old ≡ true }
    requires bytes { Bytes book.old }
    ensures is { returned (counted_of result).refusal book.new answer.new ≡ event_of book.old «record».now answer.old }
    ensures answered { IfOk result (λ n. Answered n answer.old answer.new) }
    ensures kept { keeps_of book.new ≡ true }
    ensures fits { Bytes book.new }
{
    let kept = Kept { bytes: book };
    let origin = step::ask(&kept, record, answer.len(), event, change)?;
    let k = store::request_count(book);
    let place = change.place;
    let leaves = order::leaves_qty(&change.order);
    let opening = index::opening(book, place, change.order.client, leaves);
    write::place_order(book, place, &change.order);
    write::place_requests(book, &change.requests);
    write::place_index(book, change.requests.added, k, origin, place, opening);
    let out = &change.output;
    Ok(records::write_answer(
        answer,
        out.alarm,
        out.alarm2,
        out.count,
        &out.first,
        &out.second,
    ))
}

// Takes the event in `record`, if the book keeps its rules.
#[tactic(auto, using(crate::specs::Laws::Entered::entered, orders::specs::Laws::Choices::choices))]
pub fn event(book: &mut [u8], record: &[u8], answer: &mut [u8]) -> u32
    ensures { returned result book.new answer.new ≡ event_of book.old «record».now answer.old }
{
    if !keeps(book) {
        return Refusal::BadBook.number();
    }
    let mut event = NO_RECORD;
    let mut change = NOTHING;
    match take(book, record, answer, &mut event, &mut change) {
        Ok(_) => 0,
        Err(refusal) => refusal.number(),
    }
}

// Takes the events in `records`, each record after its length in 2 bytes, as far as whole ones stand there and
// `answers` has room for one more.
#[tactic(auto, using(crate::specs::Laws::Runs::called), unfolding(crate::specs::Events::events_of))]
pub fn events(book: &mut [u8], records: &[u8], answers: &mut [u8]) -> Ran
    ensures { many result book.new answers.new ≡ events_of book.old «records».now answers.old }
{
    if !keeps(book) {
        return list::refusing(Refusal::BadBook);
    }
    if answers.len() < list::MOST_SAID {
        return list::refusing(Refusal::ShortAnswer);
    }
    list::run(book, records, answers)
}
