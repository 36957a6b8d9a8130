// A reader of a book: the lent slice, and a position in it. It is thin: `current` takes it apart, and `edit::read`, over the slice and the
// numbers, does the work. `read_at` has plain parameters, for every other caller.
#![tactic(auto)]

ghost use Rattle.std.specs.Prelude.{◌≡◌};
ghost use Rattle.edit.specs.Edits.{found};

use ground::Refusal;

#[derive(Clone, Copy)]
pub struct Reader<'a> {
    pub book: &'a [u8],
    pub position: usize,
}

// A reader at a position of a book.
pub fn new<'a>(book: &'a [u8], position: usize) -> Reader<'a>
    ensures { (result.book ≡ book.entry) × (result.position ≡ position) }
{
    Reader { book, position }
}

// The record that the reader stands at, in the book of a used length.
pub fn current<'a>(r: Reader<'a>, used: usize) -> Result<[u8; 56], Refusal>
    ensures { result ≡ found r.entry.book.now used r.entry.position }
{
    edit::read(r.book, used, r.position)
}

// What a reader at a position finds.
pub fn read_at(book: &[u8], used: usize, position: usize) -> Result<[u8; 56], Refusal>
    ensures { result ≡ found book.now used position }
{
    current(new(book, position), used)
}
