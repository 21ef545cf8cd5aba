// What the book has retired: its archives, oldest first, each a book. They are asked before the book, which does
// not know a name or ClOrdID that it has retired. Rests on gateway, store and words.
use std::alloc::Global;
use std::io;
use store::layout;

// The refusal of a booking whose name or ClOrdID is in use.
const IN_USE: u32 = 5;

// The kinds of a booking, of a cancel and of a replace.
const BOOKING: u8 = 1;

const CANCEL: u8 = 2;

const REPLACE: u8 = 3;

// 256 entries of 34 bytes, a number of the C header.
const CHAIN: usize = 8704;

#[derive(Drop)]
pub(crate) struct Archives {
    bytes: Vec<u8>,
}

// Whether the record is a cancel or replace whose ClOrdID its client has used in the archive: the book's rules ask
// for no more than that to turn it away with a message, so that it changes nothing.
fn repeats(archive: &[u8], record: &[u8]) -> bool {
    let byte = |n: usize| record.get(n).copied().unwrap_or(0);
    let kind = byte(0);
    if kind != CANCEL && kind != REPLACE {
        return false;
    }
    let client = u16::from_le_bytes([byte(5), byte(6)]);
    let end = 8 + usize::from(byte(7));
    let name = record.get(8..end).unwrap_or(&[]);
    let mut list = [0u8; CHAIN];
    gateway::chain(archive, client, name, &mut list).number > 0
}

// Whether the record is a booking whose name or ClOrdID is in use in the archive.
fn in_use(archive: &[u8], record: &[u8]) -> bool {
    record.first().copied() == Some(BOOKING) && gateway::needs(archive, record).refusal == IN_USE
}

impl Archives {
    pub(crate) fn new(alloc: Global) -> Archives {
        Archives {
            bytes: Vec::new(alloc),
        }
    }

    // Each archive, oldest first.
    pub(crate) fn all(&self) -> &[[u8; layout::BOOK]] {
        let (all, _) = self.bytes.as_chunks::<{ layout::BOOK }>();
        all
    }

    // What a record gets that the archives turn away, 0 if with a message; None if the book is to take it.
    pub(crate) fn refusal(&self, record: &[u8]) -> Option<u32> {
        if self.all().iter().any(|archive| in_use(archive, record)) {
            return Some(IN_USE);
        }
        if self.all().iter().any(|archive| repeats(archive, record)) {
            return Some(0);
        }
        None
    }

    // Retires the book's done orders into the newest archive, or into a fresh one if that refuses them; whether
    // there were any.
    pub(crate) fn retire(&mut self, book: &mut [u8]) -> io::Result<bool> {
        let newest = self.bytes.len().saturating_sub(layout::BOOK);
        if let Some(archive) = self.bytes.as_mut_slice().get_mut(newest..) {
            let moved = gateway::retire(book, archive);
            if moved.refusal == 0 {
                return Ok(moved.number > 0);
            }
        }
        let mut fresh = [0u8; layout::BOOK];
        let _ = gateway::start(&mut fresh, super::SETTING);
        let moved = gateway::retire(book, &mut fresh);
        if moved.number > 0 {
            self.bytes.extend_from_slice(&fresh)?;
        }
        Ok(moved.number > 0)
    }
}
