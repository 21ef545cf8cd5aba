// Numbers and texts as bytes: a number and a text written. Slice and position come one by one, here and in `put`,
// as in decimal: a struct of both would be made anew for each field, which starts where the last one ended.
// Rests on the kit's library.
ghost use Rattle.std.specs.Prelude.{◌≡◌, ◌∷◌, ◌<◌, ◌+◌, ◌≤◌, length};
ghost use Rattle.prelude.specs.Span.{splice};
ghost use Rattle.prelude.specs.Number.{bytes_of};

// Writes bytes at an index, one by one: for `copy_from_slice` of two slices the compiler calls `memmove`, which the
// archive would ask of its host.
#[tactic(auto, using(prelude::specs::Laws::Span::copy_all))]
fn put_bytes(dst: &mut [u8], at: usize, bytes: &[u8])
    requires { at + length bytes.now ≤ length dst.old }
    ensures { dst.new ≡ splice dst.old at bytes.now }
{
    for (i, byte) in bytes.iter().enumerate() {
        dst[at + i] = *byte;
    }
}

// Writes a number in n bytes, and returns the position after it.
pub(crate) fn put_number(dst: &mut [u8], at: usize, value: u64, n: usize) -> usize
    requires { (n ≤ 8) × (at + n ≤ length dst.old) }
    ensures { (result ≡ at + n) × (dst.new ≡ splice dst.old at (bytes_of n value)) }
{
    put_bytes(dst, at, &value.to_le_bytes()[..n]);
    at + n
}

// Writes a text behind its length byte, and returns the position after it. The length is below 256, so `as`
// is proved to lose nothing.
pub(crate) fn put_text(dst: &mut [u8], at: usize, text: &[u8]) -> usize
    requires { (length text.now < 256) × (at + 1 + length text.now ≤ length dst.old) }
    ensures { (result ≡ at + 1 + length text.now) × (dst.new ≡ splice dst.old at (length text.now ∷ text.now)) }
{
    let n = text.len();
    dst[at] = n as u8;
    let p = at + 1;
    put_bytes(dst, p, text);
    p + n
}
