// FIX 4.4 messages of our records as C functions on byte slices: each calls the function of the same
// name in fix, whose contract it repeats. The symbols of libfix.a. Rests on fix.
#![tactic(auto)]

ghost use Rattle.std.specs.Prelude.{◌≡◌};
ghost use Rattle.records.specs.Place.{place_of};
ghost use Rattle.fix_words.specs.Record.{session};
ghost use Rattle.fix_claims.specs.Reading.{fields_read};
ghost use Rattle.fix_claims.specs.Call.{wrote, write_call};

use fix_claims::{FixFields, Written};
use records::cut::Place;

// Writes the FIX message of a message record to the front of `out`, with the session's comp IDs,
// sequence number and time text.
#[unsafe(no_mangle)]
pub extern "C" fn fix_write(
    record: &[u8],
    sender: &[u8],
    target: &[u8],
    sequence: u64,
    time: &[u8],
    out: &mut [u8],
) -> Written
    ensures { wrote result out.new ≡ write_call «record».now (session sender.now target.now sequence time.now) out.old }
{
    fix::fix_write(record, sender, target, sequence, time, out)
}

// The fields of a FIX message that a writing yields; 3 for all other bytes.
#[unsafe(no_mangle)]
pub extern "C" fn fix_read(message: &[u8]) -> FixFields
    ensures { result ≡ fields_read message.now }
{
    fix::fix_read(message)
}

// Where message n of an answer stands, counted from 0.
#[unsafe(no_mangle)]
pub extern "C" fn message_at(answer: &[u8], n: u32) -> Place
    ensures { result ≡ place_of answer.now n }
{
    fix::message_at(answer, n)
}
