// The listing program: reads the text of a network from standard input, and prints what can be said of it.
//
// All that it prints is made by `page::print`, from bytes to bytes, whose contract cites specs/Page.antt. Nothing is proved of reading and writing.
#![tactic(auto)]

mod page;
mod pieces;

ghost use Rattle.std.specs.Prelude.{◌≤◌, IfOk, length};

use pieces::Page;
use std::io;
use std::io::{Read, Write};

// One byte more than the longest text that is looked at, so that a longer one is seen to be longer.
fn main(rt: HostRuntime) -> io::Result<()> {
    let mut input = [0u8; 18451];
    let mut page = Page::empty();
    let got = read_full(&mut rt.stdin(), &mut input)?;
    page::print(&input[..got], &mut page);
    io::writer(&rt).write_all(&page.bytes[..page.count])
}

// Reads until the buffer is full or the text ends, and answers how many bytes came.
fn read_full<R: Read>(from: &mut R, into: &mut [u8]) -> io::Result<usize>
    ensures { IfOk result (λ got. got ≤ length into.new) }
{
    let mut got = 0;
    while got < into.len() {
        let more = from.read(&mut into[got..])?;
        if more == 0 {
            break;
        }
        got += more;
    }
    Ok(got)
}
