// Why a request is refused, and by whom: constants and no enum, since a venue may give any number, and
// a message may hold any byte as the origin.

// CxlRejReason(102).
pub const TOO_LATE: u32 = 0;

pub const UNKNOWN: u32 = 1;

pub const ALREADY_PENDING: u32 = 3;

pub const DUPLICATE: u32 = 6;

pub const OTHER: u32 = 99;

// A reason's origin.
pub const OURS: u8 = 1;

pub const VENUES: u8 = 2;
