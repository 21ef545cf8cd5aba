// Orders and requests that fill the tables: each field from the index by a rule of its own, so that
// no two fields of a record are alike. Remainders become bytes by `as`, which is proved to lose nothing.
ghost use Rattle.std.specs.Prelude.{◌<◌};

use prelude::{Terms, Text};
use store::{GatewayCancel, Links, Names, Order, Pending, Request, State};

// One letter, a dash and k.
pub(crate) fn label(letter: u8, k: u16) -> Text {
    let t = text::no_text();
    let mut bytes = t.bytes;
    bytes[0] = letter;
    text::numbered(Text { bytes, len: 1 }, k)
}

pub(crate) fn name(i: u16) -> Text {
    label(b'N', i)
}

pub(crate) fn client(i: u16) -> u16
    ensures { result < 8 }
{
    i % 8
}

fn names(i: u16, turn: u16) -> Names {
    Names {
        name: name(i),
        clordid: label(b'C', i),
        downstream: label(b'D', turn),
        symbol: label(b'S', i / 3),
        venueorderid: label(b'V', i % 5),
    }
}

fn terms(i: u16, turn: u16) -> Terms {
    Terms {
        side: (i % 3) as u8,
        ordtype: (i % 2 + 10) as u8,
        timeinforce: (i % 7 + 20) as u8,
        qty: 1_000_000_007 * u64::from(i) + u64::from(turn),
        price: 99_999_999_000_000 + u64::from(i),
    }
}

fn state(i: u16, turn: u16) -> State {
    State {
        status: (i % 9 + 48) as u8,
        cumqty: 7_000_003 * u64::from(i),
        avgpx: 5_000_000_011 * u64::from(turn) + u64::from(i),
        execseq: 18_000_000_000_000_000_000 + u64::from(i),
    }
}

fn pending(i: u16) -> Pending {
    Pending {
        request: i / 2,
        qty: 300_000_001 * u64::from(i),
        price: 11_000_000_000_000 + u64::from(i),
        ordtype: (i % 2 + 30) as u8,
        timeinforce: (i % 4 + 40) as u8,
    }
}

// None, unsent, sent and stuck in turn.
fn gateway(i: u16) -> GatewayCancel {
    let stage = i % 4;
    if stage == 0 {
        return store::NO_GATEWAY;
    }
    GatewayCancel {
        tries: (i % 3) as u8,
        unsent: stage == 1,
        stuck: stage == 3,
        origdownstream: i / 4 + 1,
        refusedsends: 4_000_000_000 + u32::from(i),
    }
}

pub(crate) fn order(i: u16, turn: u16) -> Order {
    Order {
        client: client(i),
        venue: i / 8 + 300,
        names: names(i, turn),
        terms: terms(i, turn),
        state: state(i, turn),
        links: Links {
            amendments: i % 11,
            current: i / 5 + 1000,
            cancel: i / 7 + 50000,
        },
        pending: pending(i),
        gateway: gateway(i),
    }
}

// The fourth of an order's requests is a gateway cancel: it has no ClOrdID.
pub(crate) fn clordid(j: u16) -> Text {
    if j % 4 == 3 {
        return text::no_text();
    }
    label(b'K', j)
}

pub(crate) fn downstream(j: u16) -> Text {
    label(b'R', j)
}

// Four requests for each order: one is answered where it came to something.
pub(crate) fn request(j: u16, outcome: u8) -> Request {
    Request {
        order: j / 4,
        kind: (j % 4) as u8,
        answered: u8::from(outcome != 0),
        clordid: clordid(j),
        origclordid: label(b'O', j / 2),
        downstream: downstream(j),
        outcome,
    }
}
