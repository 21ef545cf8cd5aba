// The net position over books, for people: a heading, then for each line the client in five columns, the symbol in
// sixteen, and the net in seventeen, in decimal with its sign. A client and symbol that stand in several books have
// one line, where they stand first. Rests on gateway, words and decimal.
use std::alloc::Global;
use std::io;
use std::io::Write;

// What the call is lent: the one number of its scratch, and 64 lines of 27 bytes. net's own constants are private:
// a host has these numbers from the C header, and this program does as a host does.
const SCRATCH: usize = 1;

const LINES: usize = 1728;

const LINE: usize = 27;

// A printed line: 5 + 1 + 16 + 17 columns, and the line feed.
const PRINTED: usize = 40;

// A client and a symbol with its length, as the call has them, and their net.
#[derive(Clone, Copy)]
struct Line {
    of: [u8; 19],
    net: i64,
}

#[derive(Drop)]
pub(crate) struct Position {
    lines: Vec<Line>,
}

fn sign(net: i64) -> u8 {
    match net {
        0 => b' ',
        1.. => b'+',
        _ => b'-',
    }
}

fn put_net(out: &mut [u8; PRINTED], net: i64) {
    let size = net.unsigned_abs();
    decimal::put_right(out, 22, 17, size, 4);
    let long = decimal::decimal_length(size, 4);
    if long < 17 {
        out[38 - long] = sign(net);
    }
}

// A byte of the symbol below 32 prints as a blank. Put together as bytes, since any byte may stand in a symbol,
// which makes it no text that a format takes.
fn print_line<W: Write>(output: &mut W, line: &Line) -> io::Result<()> {
    let mut out = [b' '; PRINTED];
    let client = words::get16(&line.of[0..2]);
    decimal::put_right(&mut out, 0, 5, u64::from(client), 0);
    for (shown, byte) in out[6..22].iter_mut().zip(&line.of[3..19]) {
        *shown = (*byte).max(b' ');
    }
    put_net(&mut out, line.net);
    out[39] = b'\n';
    output.write_all(&out)
}

impl Position {
    pub(crate) fn new(alloc: Global) -> Position {
        Position {
            lines: Vec::new(alloc),
        }
    }

    fn add_line(&mut self, line: Line) -> io::Result<()> {
        if let Some(before) = self.lines.iter_mut().find(|before| before.of == line.of) {
            before.net = before.net.saturating_add(line.net);
            return Ok(());
        }
        self.lines.push(line)?;
        Ok(())
    }

    // Adds the lines of a book that was just run, or of an archive.
    pub(crate) fn add(&mut self, book: &[u8]) -> io::Result<()> {
        let mut scratch = [0u64; SCRATCH];
        let mut space = [0u8; LINES];
        // By `as`, which is proved to lose nothing: std has no `From<u32>` for usize.
        let count = gateway::net_position(book, &mut scratch, &mut space).number as usize;
        let (lines, _) = space.as_chunks::<LINE>();
        for line in lines.iter().take(count) {
            let mut of = [0u8; 19];
            of.copy_from_slice(&line[0..19]);
            let net = words::get64(&line[19..27]);
            self.add_line(Line {
                of,
                net: net.cast_signed(),
            })?;
        }
        Ok(())
    }

    // The lines under their heading; nothing if no book has an order.
    pub(crate) fn print<W: Write>(&self, output: &mut W) -> io::Result<()> {
        if self.lines.is_empty() {
            return Ok(());
        }
        output.write_all(b"\nNet position: client, symbol, bought less sold\n")?;
        for line in self.lines.iter() {
            print_line(output, line)?;
        }
        Ok(())
    }
}
