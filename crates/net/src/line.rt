// One line, over 27 bytes. Rests on pair.
ghost use Rattle.std.specs.Prelude.{◌≡◌, true, ◌+◌, ◌≤◌, length};
ghost use Rattle.std.specs.List.{concat};
ghost use Rattle.prelude.specs.Span.{splice};
ghost use Rattle.prelude.specs.Texts.{is_text};
ghost use Rattle.net.specs.Net.{fields};

use crate::pair::Pair;

// Writes w into s from index at. `store` has the same, for itself alone: a public function could ask nothing of
// its callers.
#[tactic(auto, using(prelude::specs::Laws::Span::part_splice))]
fn put(s: &mut [u8], at: usize, w: &[u8])
    requires { at + length w.now ≤ length s.old }
    ensures { s.new ≡ splice s.old at w.now }
{
    s[at..at + w.len()].copy_from_slice(w);
}

// The line over all of s. The first 16 bytes of a stored symbol are the text and its zeros.
pub(crate) fn put_line(s: &mut [u8], pair: Pair, net: u64)
    requires { (length s.old ≡ 27) × (is_text pair.symbol ≡ true) × (pair.symbol.len ≤ 16) }
    ensures { s.new ≡ concat (fields pair.client pair.symbol net) }
{
    put(s, 0, &pair.client.to_le_bytes());
    put(s, 2, &[pair.symbol.len]);
    put(s, 3, &pair.symbol.bytes[..16]);
    put(s, 19, &net.to_le_bytes());
}
