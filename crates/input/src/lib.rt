// Reading for the programs: a buffer, an array or a record, filled from standard input as far as the
// input goes. Rests on nothing.
#![tactic(auto)]

ghost use Rattle.std.specs.Prelude.{◌≡◌, ◌-◌, ◌≤◌, ◌<◌, IfOk, OnOk, MatchOption, length, take, drop};
ghost use Rattle.std.specs.Io.KnownBytes.{Consumes, IsAtEnd};
ghost use Rattle.input.specs.Reading.{Short, Padded, Given};

use std::io;
use std::io::Read;

// Reads until the space is full or the input ends, and returns how many bytes it put at the space's
// start. An interrupted read is the caller's error, as any other: a retry has no proved end, and the
// programs handle no signals.
pub fn read_full<R: Read>(input: &mut R, space: &mut [u8]) -> io::Result<usize>
    ensures within { IfOk result (λ n. n ≤ length space.new) }
    ensures taken { IfOk result (λ n. Consumes (R.remaining input.old) (R.remaining input.new) (take n space.new)) }
    ensures ended { IfOk result (λ n. n < length space.new → IsAtEnd (R.remaining input.new)) }
{
    let mut done = 0;
    // A `while`: each read says where the next one begins, so a `for` is no plainer.
    while done < space.len() {
        let got = input.read(&mut space[done..])?;
        if got == 0 {
            break;
        }
        done += got;
    }
    Ok(done)
}

// Reads once, behind the bytes that fill the space's front, and returns how many fill it then: as many as before
// at the input's end, or if there is no room.
pub fn read_more<R: Read>(input: &mut R, space: &mut [u8], filled: usize) -> io::Result<usize>
    ensures within { IfOk result (λ n. n ≤ length space.new) }
    ensures taken { IfOk result (λ n. filled ≤ length space.new → (filled ≤ n) × Consumes (R.remaining input.old) (R.remaining input.new) (take (n - filled) (drop filled space.new))) }
    ensures ended { IfOk result (λ n. filled < length space.new → n ≡ filled → IsAtEnd (R.remaining input.new)) }
    ensures kept { IfOk result (λ n. take filled space.new ≡ take filled space.old) }
{
    let from = filled.min(space.len());
    let got = input.read(&mut space[from..])?;
    Ok(from + got)
}

// The next N bytes; None if the input ends before them.
pub fn read_array<R: Read, const N: usize>(input: &mut R) -> io::Result<Option<[u8; N]>>
    ensures { IfOk result (λ found. MatchOption found (Short N (R.remaining input.old) (R.remaining input.new)) (λ bytes. Consumes (R.remaining input.old) (R.remaining input.new) bytes)) }
{
    let mut bytes = [0u8; N];
    let got = read_full(input, &mut bytes)?;
    Ok((got == N).then_some(bytes))
}

// The next N bytes, with zeros in place of those behind the input's end: written there, since a reader
// may use the room behind what it gives.
pub fn read_padded<R: Read, const N: usize>(input: &mut R) -> io::Result<[u8; N]>
    ensures { IfOk result (Padded (R.remaining input.old) (R.remaining input.new)) }
{
    let mut padded = [0u8; N];
    let space = &mut padded[..];
    let got = read_full(input, space)?;
    space[got..].fill(0);
    Ok(padded)
}

// What the input has next: a record of so many bytes, a record that the input's end cuts, or its end. A
// size and no slice: `Given` says of the whole space what stands in it, and a caller cuts it in one place.
#[derive(Clone, Copy)]
pub enum Next {
    Record(usize),
    Cut,
    End,
}

// Reads a record, its length in two bytes before it, to the space's start.
pub fn read_record<R: Read>(input: &mut R, space: &mut [u8; 65536]) -> io::Result<Next>
    ensures { IfOk result (Given (R.remaining input.old) (R.remaining input.new) space.new) }
{
    let mut length = [0u8; 2];
    match read_full(input, &mut length)? {
        0 => return Ok(Next::End),
        1 => return Ok(Next::Cut),
        _ => {}
    }
    let size = usize::from(u16::from_le_bytes(length));
    let got = read_full(input, &mut space[..size])?;
    Ok(if got == size {
        Next::Record(size)
    } else {
        Next::Cut
    })
}
