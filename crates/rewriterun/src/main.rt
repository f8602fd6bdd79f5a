// Rules, "A soil that is not known": the program reads a stored job from standard input and prints its rewriting.
#![tactic(auto)]

use arrayvec::ArrayVec;
use std::io;
use std::io::Read;

// One byte more than the longest job text, so that a longer one is told from it.
const ROOM: usize = 4097;

fn main(rt: HostRuntime) -> io::Result<()> {
    let mut input = rt.stdin();
    let mut text = ArrayVec::<u8, ROOM>::new();
    io::copy(&mut input.take(ROOM as u64), &mut text)?;
    rewrite::rewrite(&mut text);
    rt.write_all(&text)?;
    // What follows in a text that is longer than any job goes out as it comes.
    if text.is_full() {
        io::copy(&mut input, &mut rt.stdout())?;
    }
    Ok(())
}
