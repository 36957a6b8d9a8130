// No code: this crate says what lists of calls leave of a book.
#![tactic(auto)]
