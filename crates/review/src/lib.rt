// Rules, "Checking an answer": whether an answer text that somebody else made is what the rules give for a job, or else its first
// wrong line.
#![tactic(auto)]

ghost use Rattle.std.specs.Prelude.{◌≡◌, ◌==◌, count_by};
ghost use Rattle.text.specs.Part.{Part};
ghost use Rattle.text.specs.Pieces.{line_feed};
ghost use Rattle.writing.specs.Writing.{written_given};
ghost use Rattle.review.specs.Checking.{checked_of, check_of, wrong_span};
ghost use Rattle.review.specs.Inner.{wrong_behind};

use refusal::Refusal;

// The first wrong line of a claimed text: its number, counted from 1, and its place without its line feed.
#[derive(Clone, Copy, Debug, PartialEq, Eq)]
pub struct WrongLine {
    pub line: usize,
    pub from: usize,
    pub to: usize,
}

// An answer text against the one that the rules give for a job: right where it is that one, byte for byte.
pub fn check(job: &[u8], claimed: &[u8]) -> Result<(), WrongLine>
    ensures { result ≡ check_of job.now claimed.now }
{
    let mut ours = [0u8; answer::LONGEST];
    let outcome = calculator::outcome(job);
    let length = length_of(answer::write(outcome, &mut ours));
    compare(&ours[..length], claimed)
}

// The first wrong line as that part of the claimed text itself: for a text that is right, the empty part at its end.
pub fn wrong_line<'a>(job: &[u8], claimed: &'a [u8]) -> &'a [u8]
    ensures { Part claimed.entry (wrong_span job.now claimed.now).from (wrong_span job.now claimed.now).to result }
{
    match check(job, claimed) {
        Ok(()) => text::part(claimed, claimed.len(), claimed.len()),
        Err(wrong) => text::part(claimed, wrong.from, wrong.to),
    }
}

// A claimed text against ours.
#[tactic(auto, using(crate::proofs::Comparing::wrong_in_ours, crate::proofs::Comparing::wrong_in_claimed, crate::proofs::Comparing::right_in_both))]
pub fn compare(ours: &[u8], claimed: &[u8]) -> Result<(), WrongLine>
    ensures { result ≡ checked_of ours.now claimed.now }
{
    let agreed = text::agreed(ours, claimed);
    if agreed < ours.len() || agreed < claimed.len() {
        return Err(wrong(claimed, agreed));
    }
    Ok(())
}

// The length of what was written, 0 beside a refusal: the function that written_given defines, which the proof of check cites.
fn length_of(written: Result<usize, Refusal>) -> usize
    ensures { result ≡ (written_given written).1 }
{
    match written {
        Ok(length) => length,
        Err(_) => 0,
    }
}

// The line of the claimed text that is wrong, where so many of its bytes are right.
#[tactic(auto, using(crate::proofs::Counting::feeds_within, crate::proofs::Comparing::line_told))]
fn wrong(claimed: &[u8], agreed: usize) -> WrongLine
    ensures { result ≡ wrong_behind claimed.now agreed }
{
    let ended = feeds(text::part(claimed, 0, agreed));
    let from = text::start(claimed, b'\n', ended);
    WrongLine {
        line: ended + 1,
        from,
        to: text::next(claimed, b'\n', from),
    }
}

// How many line feeds a text holds.
fn feeds(s: &[u8]) -> usize
    ensures { result ≡ count_by (λ x. x == line_feed) s.now }
{
    s.iter().filter(|x| **x == b'\n').count()
}
