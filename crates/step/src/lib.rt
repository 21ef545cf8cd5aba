// What a call of `event` comes to: every question that is asked before an event is taken, in
// order, and then the event's change. It writes nothing. Rests on rules, records and the handling.
#![tactic(auto)]

ghost use Rattle.std.specs.Prelude.{ℕ, List, true, false, ◌≡◌, ◌≤◌, IfOk, IfErr};
ghost use Rattle.prelude.specs.Cases.{if◌then◌otherwise◌};
ghost use Rattle.prelude.specs.Refusal.{number_of};
ghost use Rattle.format.specs.Refusal.{event_refusal};
ghost use Rattle.records.specs.Record.{event_in};
ghost use Rattle.records.specs.Answer.{shortest_answer};
ghost use Rattle.store.specs.Book.{book_of};
ghost use Rattle.rules.specs.Keeps.{keeps_of};
ghost use Rattle.machine.specs.Changes.{refusing};
ghost use Rattle.machine.specs.Machine.{nothing, step_of};
ghost use Rattle.orders.specs.Left.{left_by};
ghost use Rattle.machine.specs.Taken.{change_in};
ghost use Rattle.step.specs.Entries.{call_of};
ghost use Rattle.step.specs.Steps.{reads, asked_by, origin_asked};

use machine::Change;
use orders::change::NOTHING;
use prelude::Refusal;
use records::zeros::NO_RECORD;
use records::{Record, SHORTEST_ANSWER};
use rules::Kept;

mod events; // an event's whole effect, on a book that keeps its rules
mod loads; // records in use, and what an event's handling needs of the book

// Reads the event in `record` to where it is lent, if questions 2, 3 and 4 are answered with yes: `room` is the length
// of the answer buffer. Apart from `Asked`, which lends the event: a record is large, and is not to be copied.
pub fn read(record: &[u8], room: usize, event: &mut Record) -> Result<(), Refusal>
    ensures ok { IfOk result (λ done. (event.new ≡ event_in «record».now) × (0 ≡ event_refusal «record».now) × (shortest_answer ≤ room)) }
    ensures err { IfErr result (λ refusal. ((book : List ℕ) → keeps_of book ≡ true → refusing (number_of refusal) ≡ call_of book «record».now room) × (event.new ≡ event.old)) }
    ensures unread { IfErr result (λ refusal. reads «record».now room ≡ false) }
{
    if room < SHORTEST_ANSWER {
        return Err(Refusal::ShortAnswer);
    }
    records::read_event(record, event)
}

// An event that is asked of a book that keeps its rules: its record as it reads, and the link of the request
// that the OrigClOrdID of a cancel or replace names, 0 for none. That request is looked up once: for the order,
// and for what is stored beside the request that is added.
#[derive(Clone, Copy)]
pub struct Asked<'a, 'e> {
    pub book: Kept<'a>,
    pub event: &'e Record,
    pub origin: u16,
    pub ghost found: { origin ≡ origin_asked (book_of book.bytes.now) event.now },
}

impl<'a, 'e> Asked<'a, 'e> {
    pub fn new(book: &Kept<'a>, event: &'e Record) -> Asked<'a, 'e>
        ensures { (result.book.bytes.now ≡ book.now.bytes.now) × (result.event.now ≡ event.now) }
    {
        let origin = events::origin_asked(book, event);
        Asked {
            book: *book,
            event,
            origin,
        }
    }

    // Questions 5, 6 and 7, and the change that the event makes of the book.
    pub fn change(&self, change: &mut Change) -> Result<(), Refusal>
        ensures is { left_by result change.new ≡ step_of (book_of self.now.book.bytes.now) self.now.event.now }
        ensures taken { IfOk result (λ done. change.new.refusal ≡ 0) }
        ensures refused { IfErr result (λ r. change.new ≡ nothing) }
    {
        events::step_of(self, change)
    }
}

// Questions 2 to 7 of the event in `record`, in their order, on a book that keeps its rules, and the change that the
// event makes of it: what `event`, `events` and `needs` come to if question 1 is answered with yes. `room` is the
// length of the answer buffer. `event` and `change` are room for what the record reads as and what it comes to. The
// number is the link of the request that the OrigClOrdID of a cancel or replace names, 0 for none.
pub fn ask(
    book: &Kept<'_>,
    record: &[u8],
    room: usize,
    event: &mut Record,
    change: &mut Change,
) -> Result<u16, Refusal>
    ensures is { asked_by result change.new ≡ call_of book.now.bytes.now «record».now room }
    ensures taken { IfOk result (λ origin. (change.new.refusal ≡ 0) × (origin ≡ origin_asked (book_of book.now.bytes.now) (event_in «record».now))) }
    ensures refused { IfErr result (λ refusal. change.new ≡ (if reads «record».now room then nothing otherwise change.old)) }
    ensures read { event.new ≡ (if reads «record».now room then event_in «record».now otherwise event.old) }
{
    read(record, room, event)?;
    let asked = Asked::new(book, event);
    asked.change(change)?;
    Ok(asked.origin)
}

// The change that the event in `record` makes of the book, or the first question that is answered
// with no; `room` is the length of the answer buffer.
#[tactic(auto, using(crate::specs::Laws::Asked::questions))]
pub fn call_of(book: &[u8], record: &[u8], room: usize) -> Result<Change, Refusal>
    ensures is { change_in result ≡ call_of book.now «record».now room }
    ensures taken { IfOk result (λ c. c.refusal ≡ 0) }
{
    let book = Kept::new(book)?;
    let mut event = NO_RECORD;
    let mut change = NOTHING;
    ask(&book, record, room, &mut event, &mut change)?;
    Ok(change)
}
