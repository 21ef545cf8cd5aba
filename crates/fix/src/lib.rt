// FIX 4.4 messages of our records, on byte slices; fix_c lends these entries to a host as C functions:
// `fix_write` writes the message of a record, `fix_read` gives the fields of a message, and `message_at`
// says where message n of an answer stands. What messages are stands in fix_words, with its laws; what
// the entries return and what is promised of it in fix_claims; the modules do the writing, fix_reader
// the reading, and each entry equals a definition. Each is total: whatever the bytes, it returns its
// number, and a refused call has written nothing. Rests on records, decimal, fix_claims, fix_table and
// fix_reader.
#![tactic(auto)]

ghost use Rattle.std.specs.Prelude.{◌≡◌};
ghost use Rattle.records.specs.Place.{place_of};
ghost use Rattle.fix_words.specs.Record.{session};
ghost use Rattle.fix_claims.specs.Reading.{fields_read};
ghost use Rattle.fix_claims.specs.Call.{wrote, write_call};

use fix_claims::{FixFields, Written};
use records::cut;
use session::Session;

mod put; // the writer's bytes
mod room; // the writer's length
mod session;
mod value;
mod write;

// Writes the FIX message of a message record to the front of `out`, with the session's comp IDs,
// sequence number and time text.
pub fn fix_write(
    record: &[u8],
    sender: &[u8],
    target: &[u8],
    sequence: u64,
    time: &[u8],
    out: &mut [u8],
) -> Written
    ensures { wrote result out.new ≡ write_call «record».now (session sender.now target.now sequence time.now) out.old }
{
    let header = Session {
        sender,
        target,
        sequence,
        time,
    };
    write::write(record, &header, out)
}

// The fields of a FIX message that a writing yields; 3 for all other bytes.
pub fn fix_read(message: &[u8]) -> FixFields
    ensures { result ≡ fields_read message.now }
{
    fix_reader::read(message)
}

// Where message n of an answer stands, counted from 0.
pub fn message_at(answer: &[u8], n: u32) -> cut::Place
    ensures { result ≡ place_of answer.now n }
{
    cut::message_at(answer, n)
}
