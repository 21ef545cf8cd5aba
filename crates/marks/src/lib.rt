// Marks to come back to, which others call savepoints or snapshots: a name and an image of the book, in a
// place of a lent buffer; set, and returned to. What a place is and what the calls do stands in specs/Marks.antt. Both calls are total: all that
// is asked is asked before a byte is written. Rests on rules, store and format.
#![tactic(auto)]

ghost use Rattle.std.specs.Prelude.{◌≡◌};
ghost use Rattle.prelude.specs.Counted.{refusal_of};
ghost use Rattle.marks.specs.Marks.{marked, set_mark_of, return_of};

use name::Name;
use prelude::Refusal;
use rules::Kept;

mod name; // a mark's name
mod place; // the places of a buffer

// Sets a mark: name and book go to the first place of that name, else to the first free one. Refuses a
// book that does not keep its rules, then a malformed name, then a name for which there is no such place.
#[tactic(auto, using(crate::specs::Laws::Calls::set_calls, crate::proofs::Laws::Places::set_below))]
pub fn set_mark(book: &[u8], name: &[u8], places: &mut [u8]) -> Result<(), Refusal>
    ensures { marked (refusal_of result) book.now places.new ≡ set_mark_of book.now name.now places.old }
{
    let book = Kept::new(book)?;
    let name = Name::new(name)?;
    let Some(i) = place::set_place(places, &name) else {
        return Err(Refusal::NoPlace);
    };
    place::put_place(places, i, &name, &book);
    Ok(())
}

// Returns to a mark: the book becomes the image of the first place of that name whose image keeps the
// rules. Refuses a book that does not keep them, then a malformed name, then a name without such a place.
#[tactic(auto, using(crate::specs::Laws::Calls::return_calls, crate::proofs::Laws::Places::return_below, crate::proofs::Laws::Stands::book_long))]
pub fn return_to_mark(book: &mut [u8], name: &[u8], places: &[u8]) -> Result<(), Refusal>
    ensures { marked (refusal_of result) book.new places.now ≡ return_of book.old name.now places.now }
{
    Kept::new(book)?;
    let name = Name::new(name)?;
    let Some(i) = place::return_place(places, &name) else {
        return Err(Refusal::NoMark);
    };
    place::take_image(book, places, i);
    Ok(())
}
