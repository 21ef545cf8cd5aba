// FIX 4.4 messages read: `read` gives every field of bytes that a writing yields, and refuses all others
// with 3. The bytes are cut into fields (`pieces`), then asked what the writer would have asked: the
// header, each value by its row (`walk`, `values`), the end (`ending`). What is asked is specs/Laws/Checks;
// that it is exactly the writer's image is proved there. Rests on fix_table, decimal and places.
#![tactic(auto)]

ghost use Rattle.std.specs.Prelude.{◌≡◌};
ghost use Rattle.fix_claims.specs.Reading.{fields_read};
ghost use Rattle.fix_reader.specs.Laws.Checks.{checks};
ghost use Rattle.fix_words.specs.Spelling.{fields_in};

use fields::Fields;
use fix_claims::FixFields;

mod ending;
mod exec;
mod fields; // a message and its fields
mod header;
mod pieces; // the fields found
mod price; // a number of two words
mod values; // texts, codes, numbers, names
mod walk;

// Whether the fields pass the reader's questions.
#[tactic(auto, using(crate::specs::Laws::Header::headed_type, crate::specs::Laws::Header::checks_walked, crate::specs::Laws::Header::checks_unheaded, crate::specs::Laws::Header::kind_none, crate::specs::Laws::Header::kind_some))]
fn passes(f: &Fields) -> bool
    ensures { result ≡ checks (fields_in f.now.message.now) }
{
    let Some(kind) = header::kind(f) else {
        return false;
    };
    let Some(next) = walk::walk(f, kind) else {
        return false;
    };
    ending::closed(f, kind.number, next)
}

// The fields of a message.
#[tactic(auto, using(crate::specs::Laws::Cut::cut_of, crate::specs::Laws::End::read_missing, crate::specs::Laws::End::fields_taken, crate::specs::Laws::End::fields_refused))]
pub fn read(message: &[u8]) -> FixFields
    ensures { result ≡ fields_read message.now }
{
    let Some(table) = pieces::split(message) else {
        return pieces::nothing();
    };
    let f = Fields {
        message,
        table: &table,
    };
    if passes(&f) { table } else { pieces::nothing() }
}
