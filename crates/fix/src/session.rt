// What a message says of its session: the two comp IDs, the sequence number and the time. A clause sees
// fix_words' `Session`.
ghost use Rattle.fix_words.specs.Record.{Session as Told, session};

use std::marker::Model;

#[derive(Drop)]
pub(crate) struct Session<'a> {
    pub sender: &'a [u8],
    pub target: &'a [u8],
    pub sequence: u64,
    pub time: &'a [u8],
}

impl<'a> Model for Session<'a> {
    ghost Value = { Told };

    ghost view = { λ h. session h.sender.now h.target.now h.sequence h.time.now };
}
