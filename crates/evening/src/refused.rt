// How many events were refused, for standard error, each number with its count; and whether the input's end cut
// a record. Rests on nothing.
use std::io;

#[derive(Clone, Copy, Default)]
pub(crate) struct Refused {
    counts: [u64; 8],
    pub(crate) cut: bool,
}

impl Refused {
    // Counts what an event got, 0 if it was taken.
    pub(crate) fn count(&mut self, refusal: u32) {
        // By `as`, which is proved to lose nothing: std has no `From<u32>` for usize.
        if let Some(count) = self.counts.get_mut(refusal as usize) {
            *count = count.saturating_add(1);
        }
    }

    // Says nothing if nothing was refused and no record was cut.
    pub(crate) fn tell(&self, rt: &HostRuntime) -> io::Result<()> {
        for (number, count) in self.counts.iter().enumerate().skip(1) {
            if *count > 0 {
                eprintln!(rt; "evening: events refused with {number}: {count}")?;
            }
        }
        if self.cut {
            eprintln!(rt; "evening: the input ends inside a record, which was left out")?;
        }
        Ok(())
    }
}
