// Done orders retired from a book into an archive, which is a book: `retire`. What it returns and every byte
// that it leaves stands in specs/Retire.antt. All that is asked is asked before a byte is written. Rests on
// rules, store and orders.
#![tactic(auto)]

ghost use Rattle.std.specs.Prelude.{◌≡◌};
ghost use Rattle.prelude.specs.Counted.{counted_of};
ghost use Rattle.store.specs.Book.{book_of};
ghost use Rattle.retire.specs.Retire.{moved_into, retired, retire_of};
ghost use Rattle.retire.specs.Laws.Side.{side};

use prelude::Refusal;
use rules::Kept;
use store::layout;

mod asked; // what is asked of both books
mod empty; // a book without rows
mod moving; // an order and a request as they stand in the new place
mod opens; // the open-quantity words
mod rows; // rows written behind those of a book
mod side; // the orders that go along, and how many do before each

// Moves the rows of a side, done orders or live ones, behind what `into` holds, and settles all its words.
#[tactic(auto, unfolding(crate::specs::Retire::moved_into))]
fn move_into(was: &Kept<'_>, done: bool, into: &mut [u8])
    ensures { into.new ≡ moved_into (side done (book_of was.now.bytes.now)) was.now.bytes.now into.old }
{
    rows::move_rows(was, done, into);
    opens::settle_opens(into);
}

// Moves every done order of the book with all its requests behind what the archive holds; the number is that
// of the orders moved. Refuses a book that does not keep its rules, then an archive that does not, then a name
// or ClOrdID of a done order that stands there, then an archive without room for all. Rows are read in a copy
// of the book as it was: 65,536 bytes of stack.
pub fn retire(book: &mut [u8], archive: &mut [u8]) -> Result<u32, Refusal>
    ensures { retired (counted_of result) book.new archive.new ≡ retire_of book.old archive.old }
{
    let gone = asked::ask(book, archive)?;
    if gone == 0 {
        return Ok(0);
    }
    let mut bytes = [0u8; layout::BOOK];
    bytes.copy_from_slice(book);
    let was = Kept { bytes: &bytes };
    empty::empty(book);
    move_into(&was, false, book);
    move_into(&was, true, archive);
    Ok(gone)
}
