// Replays stored days from standard input (tests/replay/README.md has the format) and compares every
// refusal and every byte of every answer buffer with what is stored; then many events in one call, on a
// second book, whose answers and book must be the same. Rests on gateway, store and input.
#![tactic(auto)]

ghost use Rattle.std.specs.Prelude.{◌≤◌, IfOk, length};

use std::io::Read;
use std::{fmt, io};
use store::layout;

// As much as a length of two bytes can say, and a byte more: the longest record, answer buffer and answer.
const MOST: usize = 65536;

// Room for a list's records, and for what they are to say: a list is run before less is left than one event takes.
const LIST: usize = 131072;

// The shortest answer buffer that an event takes.
const SHORTEST: usize = 1024;

// What an answer buffer holds before the call.
const FILL: u8 = 165;

// What was counted. A refusal is the number that the call gives, and that is stored: 0 for none. Counts
// saturate: nothing bounds them, and a sum has to be proved to fit.
#[derive(Clone, Copy, Default)]
struct Tally {
    days: u32,
    taken: u32,
    refused: u32,
    wrong: u32,
}

impl Tally {
    fn count(&mut self, refusal: u32, right: bool) {
        if refusal == 0 {
            self.taken = self.taken.saturating_add(1);
        } else {
            self.refused = self.refused.saturating_add(1);
        }
        self.compare(right);
    }

    fn compare(&mut self, right: bool) {
        if !right {
            self.wrong = self.wrong.saturating_add(1);
        }
    }
}

impl fmt::Display for Tally {
    fn fmt<W: fmt::Write>(&self, f: &mut fmt::Formatter<W>) -> fmt::Result {
        let Tally {
            days,
            taken,
            refused,
            wrong,
        } = *self;
        write!(
            f,
            "days {days} taken {taken} refused {refused} wrong {wrong}"
        )
    }
}

// Whether the buffer begins with the bytes that are wanted, and is filled after them.
fn right_answer(buffer: &[u8], wanted: &[u8]) -> bool {
    buffer
        .strip_prefix(wanted)
        .is_some_and(|rest| rest.iter().all(|byte| *byte == FILL))
}

// Reads a length of two bytes, and that many bytes into the space's start; gives the length, as std's `read`
// does. No `read_record`: a record that the input's end cuts is taken at the length that it says.
fn read_sized<R: Read>(input: &mut R, space: &mut [u8; MOST]) -> io::Result<usize>
    ensures { IfOk result (λ n. n ≤ 65535) }
{
    let size = usize::from(u16::from_le_bytes(input::read_padded(input)?));
    input::read_full(input, &mut space[..size])?;
    Ok(size)
}

// Bytes put behind those that fill the front; how many fill it then. What does not fit is left out.
fn put(space: &mut [u8; LIST], filled: usize, bytes: &[u8]) -> usize {
    let from = filled.min(LIST);
    let long = bytes.len().min(LIST - from);
    space[from..from + long].copy_from_slice(&bytes[..long]);
    from + long
}

// Events whose answer buffers are long enough, once more: they are gathered and then run in one call, on a book of
// their own.
#[derive(Drop)]
struct Many {
    book: [u8; layout::BOOK],
    records: [u8; LIST],
    filled: usize,
    said: [u8; LIST],
    wanted: usize,
}

impl Many {
    fn new() -> Many {
        Many {
            book: [0; layout::BOOK],
            records: [0; LIST],
            filled: 0,
            said: [0; LIST],
            wanted: 0,
        }
    }

    // An event, by its record, and what is stored of it: its refusal and answer.
    fn gather(&mut self, record: &[u8], refusal: u8, answer: &[u8]) {
        let size = (record.len() % 65536) as u16;
        self.filled = put(&mut self.records, self.filled, &size.to_le_bytes());
        self.filled = put(&mut self.records, self.filled, record);
        self.wanted = put(&mut self.said, self.wanted, &[refusal]);
        self.wanted = put(&mut self.said, self.wanted, answer);
    }

    fn is_full(&self) -> bool {
        self.filled > LIST - MOST - 2 || self.wanted > LIST - MOST - 1
    }

    // Runs what was gathered: whether that says what is stored, and leaves the book that the events leave one by one.
    fn run(&mut self, book: &[u8]) -> bool {
        let mut answers = [0u8; LIST];
        let filled = self.filled.min(LIST);
        let wanted = self.wanted.min(LIST);
        self.filled = 0;
        self.wanted = 0;
        let ran = gateway::events(&mut self.book, &self.records[..filled], &mut answers);
        // By `as`, which is proved to lose nothing: std has no `From<u64>` for usize.
        let written = (ran.written as usize).min(LIST);
        ran.refusal == 0
            && ran.read == filled as u64
            && answers[..written] == self.said[..wanted]
            && self.book.as_slice() == book
    }
}

// An event: its record, the length of the answer buffer, and what is stored of the call: the refusal,
// and with none the answer.
fn event<R: Read>(
    input: &mut R,
    tally: &mut Tally,
    book: &mut [u8],
    many: &mut Many,
) -> io::Result<()> {
    let mut record = [0u8; MOST];
    let size = read_sized(input, &mut record)?;
    // By `as`, which is proved to lose nothing: std has no `From<u32>` for usize.
    let room = (u32::from_le_bytes(input::read_padded(input)?) as usize).min(MOST);
    let mut space = [FILL; MOST];
    let answer = &mut space[..room];
    let refusal = gateway::event(book, &record[..size], answer);
    let [stored] = input::read_padded::<_, 1>(input)?;
    let mut wanted = [0u8; MOST];
    let long = if stored == 0 {
        read_sized(input, &mut wanted)?
    } else {
        0
    };
    let right = refusal == u32::from(stored) && right_answer(&space[..room], &wanted[..long]);
    tally.count(refusal, right);
    if room >= SHORTEST {
        many.gather(&record[..size], stored, &wanted[..long]);
    }
    if many.is_full() {
        tally.compare(many.run(book));
    }
    Ok(())
}

// A day begins.
fn start<R: Read>(
    input: &mut R,
    tally: &mut Tally,
    book: &mut [u8],
    many: &mut Many,
) -> io::Result<()> {
    tally.compare(many.run(book));
    let setting = u32::from_le_bytes(input::read_padded(input)?);
    let _ = gateway::start(book, setting);
    let _ = gateway::start(&mut many.book, setting);
    tally.days = tally.days.saturating_add(1);
    Ok(())
}

// The most days and events of an input, counted together: what stands behind them is not read.
const MOST_ITEMS: u64 = 1_000_000;

fn all<R: Read>(input: &mut R) -> io::Result<Tally> {
    let mut book = [0u8; layout::BOOK];
    let mut many = Many::new();
    let mut tally = Tally::default();
    for _ in 0..MOST_ITEMS {
        let Some(tag) = input::read_array::<_, 1>(input)? else {
            break;
        };
        // By its index: the borrow checker does not cover a pattern of an array in this function yet.
        if tag[0] == 0 {
            start(input, &mut tally, &mut book, &mut many)?;
        } else {
            event(input, &mut tally, &mut book, &mut many)?;
        }
    }
    tally.compare(many.run(&book));
    Ok(tally)
}

fn main(rt: HostRuntime) -> io::Result<()> {
    rt.println(all(&mut rt.reader())?)
}
