// The record with nothing in it, and its parts: a message names what it has, and takes the rest by `..`; and an
// event that is read is begun in it. Zeros, and not derived, as in store, where the reason stands. Rests on nothing.
use crate::{Exec, Ids, LongText, Record, Told};
use prelude::{Terms, Text};

pub const NO_LONG_TEXT: LongText = LongText {
    bytes: [0u8; 64],
    len: 0,
};

const NO_TEXT: Text = Text {
    bytes: [0; 32],
    len: 0,
};

pub const NO_IDS: Ids = Ids {
    name: NO_TEXT,
    clordid: NO_TEXT,
    origclordid: NO_TEXT,
    downstream: NO_TEXT,
    symbol: NO_TEXT,
    venueorderid: NO_TEXT,
    origdownstream: NO_TEXT,
};

const NO_TERMS: Terms = Terms {
    side: 0,
    ordtype: 0,
    timeinforce: 0,
    qty: 0,
    price: 0,
};

pub const NO_EXEC: Exec = Exec {
    exectype: 0,
    status: 0,
    lastqty: 0,
    lastpx: 0,
    cumqty: 0,
    avgpx: 0,
};

pub const NO_TOLD: Told = Told {
    leavesqty: 0,
    execseq: 0,
    fillprice: [0, 0],
    fixedtext: 0,
    origin: 0,
    responseto: 0,
    source: 0,
};

pub const NO_RECORD: Record = Record {
    kind: 0,
    map: 0,
    client: 0,
    venue: 0,
    reason: 0,
    verdict: 0,
    ids: NO_IDS,
    terms: NO_TERMS,
    exec: NO_EXEC,
    told: NO_TOLD,
    text: NO_LONG_TEXT,
};
