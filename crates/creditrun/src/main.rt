// Rules, "Job and answer text": the program reads a job from standard input and prints its answer.
#![tactic(auto)]

use arrayvec::ArrayVec;
use std::io;
use std::io::Read;

// One byte more than the longest job text, so that a longer one is told from it.
const ROOM: usize = 4097;

#[tactic(auto, unfolding(writing::specs::Writing::written_of))]
fn main(rt: HostRuntime) -> io::Result<()> {
    let mut text = ArrayVec::<u8, ROOM>::new();
    io::copy(&mut rt.stdin().take(ROOM as u64), &mut text)?;
    let mut buf = [0u8; answer::LONGEST];
    match calculator::answer(&text, &mut buf) {
        Ok(length) => rt.write_all(&buf[..length]),
        Err(_) => Ok(()),
    }
}
