// Reads items from standard input and compares what `records` makes of them with their stored answers. An item
// is a tag, 1 event or 2 answer, a length of two bytes, that many bytes, and the refusal that they get. An
// answer that is accepted is written again and compared. A refusal is the number that is stored, 0 for none.
// Rests on records and input.
#![tactic(auto)]

use records::Answer;
use records::zeros::NO_RECORD;
use std::io::Read;
use std::{fmt, io};

// As much as a length of two bytes can say, and a byte more.
const SPACE: usize = 65536;

// The most items of an input: what stands behind them is not read.
const MOST_ITEMS: u64 = 1_000_000;

// What an item is, by its tag.
#[derive(Clone, Copy)]
enum Kind {
    Event,
    Answer,
}

// A byte that is no tag: an item with one is wrong.
#[derive(Clone, Copy)]
struct NoTag;

impl TryFrom<u8> for Kind {
    type Error = NoTag;

    fn try_from(tag: u8) -> Result<Kind, NoTag> {
        match tag {
            1 => Ok(Kind::Event),
            2 => Ok(Kind::Answer),
            _ => Err(NoTag),
        }
    }
}

impl Kind {
    // Whether its bytes get the refusal that is expected, or none.
    fn right(self, s: &[u8], expected: u32) -> bool {
        match self {
            Kind::Event => right_event(s, expected),
            Kind::Answer => right_answer(s, expected),
        }
    }
}

// What was counted; a count that has reached the most it can be stays there.
#[derive(Clone, Copy, Default)]
struct Tally {
    events: u32,
    answers: u32,
    wrong: u32,
}

impl Tally {
    fn count(&mut self, tag: u8, s: &[u8], expected: u32) {
        let mut right = false;
        if let Ok(kind) = Kind::try_from(tag) {
            match kind {
                Kind::Event => self.events = self.events.saturating_add(1),
                Kind::Answer => self.answers = self.answers.saturating_add(1),
            }
            right = kind.right(s, expected);
        }
        if !right {
            self.wrong = self.wrong.saturating_add(1);
        }
    }
}

impl fmt::Display for Tally {
    fn fmt<W: fmt::Write>(&self, f: &mut fmt::Formatter<W>) -> fmt::Result {
        let Tally {
            events,
            answers,
            wrong,
        } = *self;
        write!(f, "events {events} answers {answers} wrong {wrong}")
    }
}

// Whether an answer, written again, is the bytes that it was read from.
fn written_again(s: &[u8], answer: &Answer) -> bool {
    // What `write` asks for; by `as`, since std has no `From<u32>` for usize.
    let mut out = [0u8; records::SHORTEST_ANSWER];
    let n = records::write(&mut out, answer) as usize;
    out.get(..n).is_some_and(|written| s.starts_with(written))
}

fn right_event(s: &[u8], expected: u32) -> bool {
    let mut event = NO_RECORD;
    match records::read_event(s, &mut event) {
        Ok(()) => expected == 0,
        Err(refusal) => refusal.number() == expected,
    }
}

fn right_answer(s: &[u8], expected: u32) -> bool {
    match records::read_answer(s) {
        Ok(answer) => expected == 0 && written_again(s, &answer),
        Err(refusal) => refusal.number() == expected,
    }
}

// Counts the next item; false if the input ends. `space` is room for it, and what stands there before does not matter.
fn item<R: Read>(input: &mut R, space: &mut [u8; SPACE], tally: &mut Tally) -> io::Result<bool> {
    let Some(head) = input::read_array::<_, 3>(input)? else {
        return Ok(false);
    };
    let [tag, low, high] = head;
    let size = usize::from(u16::from_le_bytes([low, high]));
    // No `read_record`: the tag stands before the length, and an item that the input's end cuts is judged at the
    // length that it says, with zeros behind what came.
    let got = input::read_full(input, &mut space[..size])?;
    space[got..size].fill(0);
    let [expected] = input::read_padded::<_, 1>(input)?;
    tally.count(tag, &space[..size], u32::from(expected));
    Ok(true)
}

fn all<R: Read>(input: &mut R) -> io::Result<Tally> {
    // One room for all: an array of this length is cleared where it is made.
    let mut space = [0u8; SPACE];
    let mut tally = Tally::default();
    for _ in 0..MOST_ITEMS {
        if !item(input, &mut space, &mut tally)? {
            break;
        }
    }
    Ok(tally)
}

fn main(rt: HostRuntime) -> io::Result<()> {
    rt.println(all(&mut rt.reader())?)
}
