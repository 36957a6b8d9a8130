// The list program: a book on standard input, its margin's lines on standard output.
#![tactic(auto)]

mod book_text;

ghost use Rattle.std.specs.Prelude.{◌<◌, IfOk, IfSome, OnOk, length, take};
ghost use Rattle.std.specs.Io.{ReadsAtMost};
ghost use Rattle.std.specs.Io.KnownBytes.{Appends, Consumes, IsAtEnd};
ghost use Rattle.list.specs.Text.{printed};

use std::io;
use std::io::{Read, Write};

// Reads until the space is full or the input ends, and answers how many bytes it put at the space's start: the input's next.
fn read_full<R: Read>(input: &mut R, space: &mut [u8]) -> io::Result<usize>
    ensures bound { ReadsAtMost result space.new }
    ensures bytes { IfOk result (λ n. Consumes (R.remaining input.old) (R.remaining input.new) (take n space.new)) }
    ensures end { IfOk result (λ n. n < length space.new → IsAtEnd (R.remaining input.new)) }
{
    let mut done = 0;
    // A read may give fewer bytes than asked for, so no range or iterator says how many turns there are.
    while done < space.len() {
        let n = input.read(&mut space[done..])?;
        if n == 0 {
            return Ok(done);
        }
        done += n;
    }
    Ok(done)
}

// Prints the text of the book that an input is. A book has at most 65,536 bytes. Of a longer input one more byte is kept, so that its length is
// refused.
fn print_listing<R: Read, W: Write>(input: &mut R, output: &mut W) -> io::Result<()>
    ensures { OnOk result (IfSome (R.remaining input.old) (λ bytes. Appends (W.contents output.old) (W.contents output.new) (printed bytes))) }
{
    let mut book = [0u8; 65537];
    let used = read_full(input, &mut book)?;
    let mut text = [0u8; 1481];
    // The text's space suffices for any, so nothing is refused.
    let n = book_text::list_text(&book[..used], used, &mut text).unwrap();
    output.write_all(&text[..n])
}

fn main(rt: HostRuntime) -> io::Result<()> {
    print_listing(&mut rt.stdin(), &mut rt.stdout())
}
