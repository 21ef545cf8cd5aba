// The book's limits, run through `event`: how many bookings are taken before one gets 7, and how many
// requests, and what an event that adds none gets then. Rests on gateway, store and step.
#![tactic(auto)]

ghost use Rattle.std.specs.Prelude.{◌<◌};

use std::io;
use store::layout;

// The most ClOrdIDs that a client may use: this program's choice, as day and evening have theirs.
const SETTING: u32 = 10000;

// A decimal digit of a number, as a character: by `as`, which is proved to lose nothing. By hand: each digit has
// its own index in a record of fixed length, and `decimal` writes no leading zeros.
fn digit(n: u16, unit: u16) -> u8
    requires { 0 < unit }
{
    b'0' + (n / unit % 10) as u8
}

// A booking of order Nab by client 1: ClOrdID Cab, symbol S, buy 100 at 10.
fn booking(i: u16) -> [u8; 37] {
    let a = digit(i, 10);
    let b = digit(i, 1);
    [
        1, 207, 7, 0, 0, 1, 0, 1, 0, 3, b'N', a, b, 3, b'C', a, b, 1, b'S', 49, 50, 64, 66, 15, 0,
        0, 0, 0, 0, 0, 202, 154, 59, 0, 0, 0, 0,
    ]
}

// A cancel of order N00 with ClOrdID Kabc.
fn cancel(i: u16) -> [u8; 19] {
    let a = digit(i, 100);
    let b = digit(i, 10);
    let c = digit(i, 1);
    [
        2, 217, 0, 0, 0, 1, 0, 4, b'K', a, b, c, 3, b'C', b'0', b'0', 1, b'S', 49,
    ]
}

// The venue's report that N00 is New: it adds no request.
fn report() -> [u8; 45] {
    let mut record = [0u8; 45];
    record[..13].copy_from_slice(&[4, 34, 240, 3, 0, 1, 0, 3, b'N', b'0', b'0', b'0', b'0']);
    record
}

// What an event gets.
fn refusal(book: &mut [u8], record: &[u8]) -> u32 {
    let mut answer = [0u8; records::SHORTEST_ANSWER];
    gateway::event(book, record, &mut answer)
}

fn main(rt: HostRuntime) -> io::Result<()> {
    let mut book = [0u8; layout::BOOK];
    let _ = gateway::start(&mut book, SETTING);
    // Until one is refused. The same below for cancels: one function for both would take the call as a closure
    // over the book, and each of its two calls would be as long as this chain.
    let bookings = (0..99)
        .take_while(|i| refusal(&mut book, &booking(*i)) == 0)
        .count();
    println!(rt; "bookings taken: {bookings}")?;
    let another = refusal(&mut book, &booking(65));
    println!(rt; "another booking: {another}")?;
    let another = refusal(&mut book, &cancel(0));
    println!(rt; "another cancel: {another}")?;
    let _ = gateway::start(&mut book, SETTING);
    let first = refusal(&mut book, &booking(0));
    println!(rt; "a booking: {first}")?;
    let cancels = (0..999)
        .take_while(|i| refusal(&mut book, &cancel(*i)) == 0)
        .count();
    println!(rt; "cancels taken: {cancels}")?;
    let another = refusal(&mut book, &cancel(990));
    println!(rt; "another cancel: {another}")?;
    let second = refusal(&mut book, &booking(1));
    println!(rt; "a booking: {second}")?;
    let venues = refusal(&mut book, &report());
    println!(rt; "a report: {venues}")?;
    let check = gateway::check(&book);
    println!(rt; "check: {check}")
}
