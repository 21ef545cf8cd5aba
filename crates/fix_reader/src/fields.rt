// A message and the table of its fields: their tags, where their values start and how long they are.
// Rests on specs/Laws/Cut.
ghost use Rattle.std.specs.Prelude.{◌≡◌, length, drop, slice_index};
ghost use Rattle.fix_words.specs.Spelling.{fields_in};
ghost use Rattle.fix_words.specs.Rows.{leads};
ghost use Rattle.fix_words.specs.Message.{value_at};
ghost use Rattle.fix_claims.specs.Reading.{tag_of, place_of};
ghost use Rattle.fix_reader.specs.Laws.Cut.{Cut, cut_props};

use fix_claims::FixFields;

#[derive(Clone, Copy)]
pub(crate) struct Fields<'a> {
    pub message: &'a [u8],
    pub table: &'a FixFields,
    pub ghost cut: { Cut message.now table.now.count table.now.tag table.now.at table.now.length } by { Prim.hlevel cut_props },
}

// Entry i of a table as a size, 0 behind the last.
fn entry(t: &[u64], i: usize) -> usize
    ensures { result ≡ slice_index t.now i }
{
    // By `as`: the C structure has u64 here, for which std has no `From` to a size.
    t.get(i).copied().unwrap_or(0) as usize
}

impl<'a> Fields<'a> {
    // How many there are.
    pub(crate) fn count(&self) -> usize
        ensures { result ≡ length (fields_in self.now.message.now) }
    {
        // By `as`: the C structure has u32 here, for which std has no `From` to a size.
        self.table.count as usize
    }

    // The tag of field i, 0 behind the last.
    pub(crate) fn tag(&self, i: usize) -> u32
        ensures { result ≡ tag_of (fields_in self.now.message.now) i }
    {
        self.table.tag.get(i).copied().unwrap_or(0)
    }

    // Where the value of field i starts, 0 behind the last.
    pub(crate) fn at(&self, i: usize) -> usize
        ensures { result ≡ place_of (fields_in self.now.message.now) i }
    {
        entry(&self.table.at, i)
    }

    // The value of field i, no bytes behind the last.
    #[tactic(auto, using(crate::specs::Laws::Cut::part_within, crate::specs::Laws::Cut::part_value))]
    pub(crate) fn value(&self, i: usize) -> &'a [u8]
        ensures { result.now ≡ value_at (fields_in self.now.message.now) i }
    {
        let at = self.at(i);
        &self.message[at..at + entry(&self.table.length, i)]
    }

    // Whether field i stands and has this tag.
    #[tactic(auto, using(crate::specs::Laws::Cut::cut_leads))]
    pub(crate) fn leads(&self, i: usize, tag: u64) -> bool
        ensures { result ≡ leads tag (drop i (fields_in self.now.message.now)) }
    {
        i < self.count() && tag == u64::from(self.tag(i))
    }
}
