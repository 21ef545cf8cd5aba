// The bits of a record's map that code names, as numbers by which it shifts; the table of all fields is
// format's definition. Rests on nothing.

pub const CLIENT: u32 = 0;

pub const NAME: u32 = 2;

pub const CLORDID: u32 = 3;

pub const ORIGCLORDID: u32 = 4;

pub const DOWNSTREAM: u32 = 5;

pub const SYMBOL: u32 = 6;

pub const PRICE: u32 = 10;

pub const TIMEINFORCE: u32 = 11;

pub const STATUS: u32 = 13;

pub const VENUEORDERID: u32 = 18;

pub const REASON: u32 = 19;

pub const TEXT: u32 = 20;

pub const REDELIVERED: u32 = 21;

pub const BLOCKED: u32 = 22;

pub const EXEC: u32 = 25;

pub const FILLPRICE: u32 = 26;

pub const FIXEDTEXT: u32 = 27;

pub const ORIGIN: u32 = 28;

pub const RESPONSETO: u32 = 29;

pub const ORIGDOWNSTREAM: u32 = 30;
