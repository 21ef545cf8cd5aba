// What a request came to: accepted, refused, or its send failed. 0 is an open one's. Numbers and no enum,
// since any byte may stand in a book. Rests on nothing.

pub const ACCEPTED: u8 = 1;

pub const REFUSED: u8 = 2;

pub const FAILED_TO_SEND: u8 = 3;
