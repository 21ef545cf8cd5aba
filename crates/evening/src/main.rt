// An evening: records from standard input, each after its length in two bytes, go to one book in
// their order; then its page goes to standard output, and the net position below it. Where an order or request
// finds no room, the done orders retire into archives, whose lines come first. Standard error has how many
// events were refused and with what number, and says so if the end of the input cuts a record, which is left
// out. Rests on gateway, store, words, decimal and input.
#![tactic(auto)]

use input::Next;
use std::io;
use std::io::{Read, Write};
use store::layout;

mod archives; // what the book has retired
mod position; // the net position's lines
mod refused; // how many events were refused

use archives::Archives;
use position::Position;
use refused::Refused;

// The most ClOrdIDs that a client may use: this program's choice, as day and try_limits have theirs.
const SETTING: u32 = 10000;

// The room of a record of any length, and of an answer.
const RECORD: usize = 65536;

const ANSWER: usize = 1024;

// 64 lines of 81 bytes, a number of the C header.
const PAGE: usize = 5184;

// The refusal for want of an order or request record.
const FULL: u32 = 7;

// What an event's record gets; what it answers goes nowhere. If there is no room, the done orders retire first.
fn take(book: &mut [u8], archives: &mut Archives, record: &[u8]) -> io::Result<u32> {
    if let Some(refusal) = archives.refusal(record) {
        return Ok(refusal);
    }
    let mut answer = [0u8; ANSWER];
    let refusal = gateway::event(book, record, &mut answer);
    if refusal == FULL && archives.retire(book)? {
        return Ok(gateway::event(book, record, &mut answer));
    }
    Ok(refusal)
}

// Takes the events of the input.
fn take_all<R: Read>(
    input: &mut R,
    book: &mut [u8],
    archives: &mut Archives,
) -> io::Result<Refused> {
    let mut space = [0u8; RECORD];
    let mut refused = Refused::default();
    // A proved loop ends: this one after more records than an input can have.
    for _ in 0..u64::MAX {
        match input::read_record(input, &mut space)? {
            Next::Record(size) => {
                let record = space.get(..size).unwrap_or(&[]);
                refused.count(take(book, archives, record)?);
            }
            Next::Cut => {
                refused.cut = true;
                break;
            }
            Next::End => break,
        }
    }
    Ok(refused)
}

// The page of a book that was just run, or of an archive.
fn print<W: Write>(output: &mut W, book: &[u8]) -> io::Result<()> {
    let mut out = [0u8; PAGE];
    // By `as`, which is proved to lose nothing: std has no `From<u32>` for usize.
    let long = gateway::page(book, &mut out).number as usize;
    if let Some(page) = out.get(..long) {
        output.write_all(page)?;
    }
    Ok(())
}

fn main(rt: HostRuntime) -> io::Result<()> {
    let mut book = [0u8; layout::BOOK];
    let _ = gateway::start(&mut book, SETTING);
    let mut archives = Archives::new(rt.alloc());
    let refused = take_all(&mut rt.reader(), &mut book, &mut archives)?;
    let mut output = io::writer(&rt);
    let mut position = Position::new(rt.alloc());
    for archive in archives.all().iter() {
        print(&mut output, archive)?;
        position.add(archive)?;
    }
    print(&mut output, &book)?;
    position.add(&book)?;
    position.print(&mut output)?;
    // The page is out: a standard error that takes nothing changes nothing of that.
    let _ = refused.tell(&rt);
    Ok(())
}
