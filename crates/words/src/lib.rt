// Little-endian numbers, read in place. A read from the start of a slice is total:
// a byte behind the end counts as 0, as in prelude's words. A number at an index is read through a window,
// `get64(&s[at..at + 8])`, so that nothing behind it is read. Rests on prelude.
#![tactic(auto)]

ghost use Rattle.std.specs.Prelude.{ℕ, ◌≡◌, ◌<◌, ◌++◌, take, replicate, get_or};
ghost use Rattle.prelude.specs.Number.{word16, word32, word64};

// The first N bytes, zeros in place of those behind the end. If the length is known, as in
// `get64(&s[at..at + 8])`, this and the number become one load.
pub fn padded<const N: usize>(s: &[u8]) -> [u8; N]
    ensures all { result ≡ take N (s.now ++ replicate N 0) }
    ensures each { (k : ℕ) → k < N → get_or result k 0 ≡ get_or s.now k 0 }
{
    let mut bytes = [0u8; N];
    let n = s.len().min(N);
    bytes[..n].copy_from_slice(&s[..n]);
    bytes
}

// The numbers of the first 2, 4 and 8 bytes, a line each: std has no trait for `from_le_bytes`. One of our
// own would be longer than they are, and num_traits' gives a number by a ghost function that each caller
// would have to turn into prelude's words.
pub fn get16(s: &[u8]) -> u16
    ensures { result ≡ word16 s.now 0 }
{
    u16::from_le_bytes(padded(s))
}

pub fn get32(s: &[u8]) -> u32
    ensures { result ≡ word32 s.now 0 }
{
    u32::from_le_bytes(padded(s))
}

pub fn get64(s: &[u8]) -> u64
    ensures { result ≡ word64 s.now 0 }
{
    u64::from_le_bytes(padded(s))
}
