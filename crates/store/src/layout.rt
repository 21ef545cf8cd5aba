// The book's bytes: every offset and size of the layout, once. The same numbers as definitions are
// specs/Layout.antt, and docs/LAYOUT.md has them as a table. Rests on nothing.

pub const BOOK: usize = 65536;

// All the bytes of a book.
pub type Bytes = [u8; BOOK];

// The header: two counts and the setting.
pub const ORDER_COUNT: usize = 0;

pub const REQUEST_COUNT: usize = 2;

pub const SETTING: usize = 4;

// The tables: where each starts, the size of a record, and how many it has. Record i of the orders stands
// at `ORDERS + i * ORDER`, written out where it is used: a public function may not ask that i is in the
// table, and one in each of store, rules and opens would be three of the same.
pub const ORDERS: usize = 256;

pub const ORDER: usize = 256;

pub const MOST_ORDERS: usize = 64;

pub const REQUESTS: usize = 16640;

pub const REQUEST: usize = 128;

pub const MOST_REQUESTS: usize = 256;

// Behind the tables, a word for each order that the table has room for.
pub const OPENS: usize = 49408;

pub const OPEN: usize = 8;

// An order's fields, from the start of its record.
pub const CLIENT: usize = 0;

pub const VENUE: usize = 2;

pub const NAME: usize = 4;

pub const CLORDID: usize = 37;

pub const DOWNSTREAM: usize = 70;

pub const SYMBOL: usize = 103;

pub const VENUEORDERID: usize = 136;

pub const SIDE: usize = 169;

pub const ORDTYPE: usize = 170;

pub const TIMEINFORCE: usize = 171;

pub const QTY: usize = 172;

pub const PRICE: usize = 180;

pub const STATUS: usize = 188;

pub const CUMQTY: usize = 189;

pub const AVGPX: usize = 197;

pub const EXECSEQ: usize = 205;

pub const AMENDMENTS: usize = 213;

pub const CURRENT: usize = 215;

pub const CANCEL: usize = 217;

pub const PENDING_REQUEST: usize = 219;

pub const PENDING_QTY: usize = 221;

pub const PENDING_PRICE: usize = 229;

pub const PENDING_ORDTYPE: usize = 237;

pub const PENDING_TIMEINFORCE: usize = 238;

pub const STAGE: usize = 239;

pub const TRIES: usize = 240;

pub const ORIGDOWNSTREAM: usize = 241;

pub const REFUSEDSENDS: usize = 243;

// Written as zeros, never read.
pub const SPARE: usize = 247;

// A text's length, from the start of the text: it stands behind its 32 bytes.
pub const TEXT_LEN: usize = 32;

// A request's fields.
pub const REQUEST_ORDER: usize = 0;

pub const REQUEST_KIND: usize = 2;

pub const REQUEST_ANSWERED: usize = 3;

pub const REQUEST_CLORDID: usize = 4;

pub const REQUEST_CLORDID_LEN: usize = REQUEST_CLORDID + TEXT_LEN;

pub const REQUEST_ORIGCLORDID: usize = 37;

pub const REQUEST_DOWNSTREAM: usize = 70;

pub const REQUEST_OUTCOME: usize = 103;

// Beside the fields: the link of the request that the OrigClOrdID names.
pub const REQUEST_ORIGIN: usize = 104;
