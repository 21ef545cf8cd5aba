// The entries of the gateway's book as C functions on byte slices: each calls the function of the same
// name in gateway, whose contract it repeats. They are the symbols of libgateway.a. Rests on gateway.
#![tactic(auto)]

ghost use Rattle.std.specs.Prelude.{◌≡◌};
ghost use Rattle.step.specs.Entries.{start_of, start_refusal, check_of, returned, event_of};
ghost use Rattle.events.specs.Events.{many, events_of};
ghost use Rattle.page.specs.Page.{paged, page_call};
ghost use Rattle.opens.specs.Opens.{open_call};
ghost use Rattle.net.specs.Net.{IsNet};
ghost use Rattle.marks.specs.Marks.{marked, set_mark_of, return_of};
ghost use Rattle.needs.specs.Needs.{needs_call};
ghost use Rattle.chain.specs.Chain.{chained, chain_call};
ghost use Rattle.retire.specs.Retire.{retired, retire_of};

use events::Ran;
use opens::Opened;
use prelude::Counted;

// Makes an empty book: zeros but for the setting, the most ClOrdIDs that a client may use.
#[unsafe(no_mangle)]
pub extern "C" fn start(book: &mut [u8], setting: u32) -> u32
    ensures { (result ≡ start_refusal book.old) × (book.new ≡ start_of book.old setting) }
{
    gateway::start(book, setting)
}

// Takes the event in `record`: the book changes, and the answer stands at the start of `answer`.
#[unsafe(no_mangle)]
pub extern "C" fn event(book: &mut [u8], record: &[u8], answer: &mut [u8]) -> u32
    ensures { returned result book.new answer.new ≡ event_of book.old «record».now answer.old }
{
    gateway::event(book, record, answer)
}

// Takes the events in `records`, each record after its length in 2 bytes, as far as whole ones stand there and
// `answers` has 1,025 bytes left. Of each its refusal stands in a byte of `answers`, and its answer behind it if
// that is 0.
#[unsafe(no_mangle)]
pub extern "C" fn events(book: &mut [u8], records: &[u8], answers: &mut [u8]) -> Ran
    ensures { many result book.new answers.new ≡ events_of book.old records.now answers.old }
{
    gateway::events(book, records, answers)
}

// Whether the book keeps its rules: 0, or 1.
#[unsafe(no_mangle)]
pub extern "C" fn check(book: &[u8]) -> u32
    ensures { result ≡ check_of book.now }
{
    gateway::check(book)
}

// Prints the evening page of the book to the front of `out`; the number is the page's length.
#[unsafe(no_mangle)]
pub extern "C" fn page(book: &[u8], out: &mut [u8]) -> Counted
    ensures { paged result out.new ≡ page_call book.now out.old }
{
    gateway::page(book, out)
}

// The open quantity of a client: the sum of LeavesQty over its orders, 0 for one without orders.
#[unsafe(no_mangle)]
pub extern "C" fn open_quantity(book: &[u8], client: u16) -> Opened
    ensures { result ≡ open_call book.now client }
{
    gateway::open_quantity(book, client)
}

// Writes a line for each client and symbol to the front of `lines`; the number is their count.
#[unsafe(no_mangle)]
pub extern "C" fn net_position(book: &[u8], scratch: &mut [u64], lines: &mut [u8]) -> Counted
    ensures { IsNet book.now scratch.old lines.old result scratch.new lines.new }
{
    gateway::net_position(book, scratch, lines)
}

// Sets a mark in `places`: the name and an image of the book, in the first place of that name, else in
// the first free one.
#[unsafe(no_mangle)]
pub extern "C" fn set_mark(book: &[u8], name: &[u8], places: &mut [u8]) -> u32
    ensures { marked result book.now places.new ≡ set_mark_of book.now name.now places.old }
{
    gateway::set_mark(book, name, places)
}

// Returns to a mark: the book becomes the image of the first place of that name whose image keeps the
// rules.
#[unsafe(no_mangle)]
pub extern "C" fn return_to_mark(book: &mut [u8], name: &[u8], places: &[u8]) -> u32
    ensures { marked result book.new places.now ≡ return_of book.old name.now places.now }
{
    gateway::return_to_mark(book, name, places)
}

// What the event in `record` will need of an answer buffer of 1,024 bytes and of the book: its own
// refusal, or the length of the answer, the records that it adds, and the fields of each message.
#[unsafe(no_mangle)]
pub extern "C" fn needs(book: &[u8], record: &[u8]) -> needs::Needs
    ensures { result ≡ needs_call book.now «record».now }
{
    gateway::needs(book, record)
}

// Writes the chain of a client's ClOrdID back to the first to the front of `list`, 34 bytes for each
// request; the number is their count, 0 for a name that the client never used.
#[unsafe(no_mangle)]
pub extern "C" fn chain(book: &[u8], client: u16, name: &[u8], list: &mut [u8]) -> Counted
    ensures { chained result list.new ≡ chain_call book.now client name.now list.old }
{
    gateway::chain(book, client, name, list)
}

// Moves every done order of the book with all its requests into the archive, which is a book, behind what it
// holds; the number is that of the orders moved.
#[unsafe(no_mangle)]
pub extern "C" fn retire(book: &mut [u8], archive: &mut [u8]) -> Counted
    ensures { retired result book.new archive.new ≡ retire_of book.old archive.old }
{
    gateway::retire(book, archive)
}
