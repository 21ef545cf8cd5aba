// The bits that a message treats in a way of their own, once for the writer and the reader, as indices: of
// a record's parts and in `Row`. The numbers are those of format's `bit`, by which code shifts; by `as`, which is
// proved to lose nothing, since std has no `From<u32>` for usize.

pub const NAME: usize = format::bit::NAME as usize;

pub const TEXT: usize = format::bit::TEXT as usize;

pub const EXEC: usize = format::bit::EXEC as usize;

pub const FILLPRICE: usize = format::bit::FILLPRICE as usize;

pub const FIXEDTEXT: usize = format::bit::FIXEDTEXT as usize;
