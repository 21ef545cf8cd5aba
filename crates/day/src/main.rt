// A day: records from standard input, each after its length in two bytes, go to one book in their order, as
// many in one call of `events` as have come. For each event a line says its number, the refusal, how many
// messages went out, and the two alarms. A record that the end of the input cuts gets the refusal of one that
// does not read whole. Standard error has how many events were refused and with what number, and says so if a
// record was cut. Rests on prelude, store, gateway and input.
#![tactic(auto)]

use prelude::Refusal;
use std::{fmt, io};
use store::layout;

mod refused; // how many events were refused

use refused::Refused;

// The most ClOrdIDs that a client may use: this program's choice, as evening and try_limits have theirs.
const SETTING: u32 = 10000;

// Room for records, of which one alone may take 65,537 bytes, and for what a call says of them: as much as may
// come at once.
const RECORDS: usize = 131072;

const ANSWERS: usize = 65536;

// A line: what is told of an event. The refusal is printed as the number that the call gives, 0 for none.
#[derive(Clone, Copy, Default)]
struct Line {
    event: u64,
    refusal: u32,
    messages: u8,
    alarm: u8,
    alarm2: u8,
}

impl Line {
    fn refused(event: u64, refusal: u32) -> Line {
        Line {
            event,
            refusal,
            ..Line::default()
        }
    }
}

impl fmt::Display for Line {
    fn fmt<W: fmt::Write>(&self, f: &mut fmt::Formatter<W>) -> fmt::Result {
        let Line {
            event,
            refusal,
            messages,
            alarm,
            alarm2,
        } = *self;
        write!(f, "{event} {refusal} {messages} {alarm} {alarm2}")
    }
}

// What an event said, at a place of the answers: its refusal, and with none its answer. The line, and where the
// next event's begins.
fn told(answers: &[u8], at: usize, event: u64) -> (Line, usize) {
    let byte = |n: usize| answers.get(at.saturating_add(n)).copied().unwrap_or(0);
    match byte(0) {
        0 => {
            let long = usize::from(u16::from_le_bytes([byte(1), byte(2)]));
            let line = Line {
                event,
                refusal: 0,
                messages: byte(3),
                alarm: byte(4),
                alarm2: byte(5),
            };
            (line, at.saturating_add(1 + long))
        }
        refusal => (
            Line::refused(event, u32::from(refusal)),
            at.saturating_add(1),
        ),
    }
}

// Whether a whole record, its length and its bytes, is at the front.
fn has_whole(records: &[u8]) -> bool {
    match records {
        [low, high, rest @ ..] => usize::from(u16::from_le_bytes([*low, *high])) <= rest.len(),
        _ => false,
    }
}

// A line for each of so many events, from what a call has said of them; the event before them has this number.
fn print(
    rt: &HostRuntime,
    answers: &[u8],
    events: u64,
    before: u64,
    refused: &mut Refused,
) -> io::Result<()> {
    let mut event = before;
    let mut at = 0;
    for _ in 0..events {
        event = event.saturating_add(1);
        let (line, next) = told(answers, at, event);
        refused.count(line.refusal);
        rt.println(line)?;
        at = next;
    }
    Ok(())
}

fn main(rt: HostRuntime) -> io::Result<()> {
    let mut input = rt.reader();
    let mut space = [0u8; RECORDS];
    let mut answers = [0u8; ANSWERS];
    let mut book = [0u8; layout::BOOK];
    let _ = gateway::start(&mut book, SETTING);
    rt.println("event refusal messages alarm alarm2")?;
    let mut filled = 0;
    let mut event = 0u64;
    let mut refused = Refused::default();
    // A proved loop ends: this one after more calls than an input can have. More is read only once every whole record is
    // run and has its line, so that an input that fails loses no line.
    for _ in 0..u64::MAX {
        if !has_whole(&space[..filled]) {
            let before = filled;
            filled = input::read_more(&mut input, &mut space, before)?;
            if filled == before {
                break;
            }
            continue;
        }
        let ran = gateway::events(&mut book, &space[..filled], &mut answers);
        print(&rt, &answers, ran.events, event, &mut refused)?;
        event = event.saturating_add(ran.events);
        // By `as`, which is proved to lose nothing: std has no `From<u64>` for usize. What is left is moved to the front.
        let read = (ran.read as usize).min(filled);
        space.copy_within(read..filled, 0);
        filled -= read;
    }
    if filled > 0 {
        refused.cut = true;
        rt.println(Line::refused(event.saturating_add(1), Refusal::BadRecord.number()))?;
    }
    // The lines are out: a standard error that takes nothing changes nothing of that.
    let _ = refused.tell(&rt);
    Ok(())
}
