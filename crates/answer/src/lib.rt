// Rules, "Job and answer text": a finished outcome, and its text written into a lent buffer.
#![tactic(auto)]

ghost use Rattle.std.specs.Prelude.{◌≡◌, ◌≤◌, ltb, length, Ok, Err};
ghost use Rattle.writing.specs.Writing.{written_of, put_length, buffer_of};
ghost use Rattle.laws.specs.Text.{bytes};
ghost use Rattle.writing.specs.Lines.{line_with};
ghost use Rattle.writing.specs.Writer.{so_far, added, all_added};
ghost use Rattle.answer.specs.Lines.{basis_word, answer_text, longest};
ghost use Rattle.answer.specs.Outcomes.{outside, failure_of};
ghost use Rattle.answer.specs.Promises.{Wide};
ghost use Rattle.answer.specs.Inner.{lines_of};

use credit::Figures;
use curve::{Basis, SheetError};
use refusal::Refusal;
use writing::Writer;

// Why a job has no figures.
#[derive(Clone, Copy, Debug, PartialEq, Eq)]
pub enum Failure {
    // The job's line in which the refusal arose, counted from 1, or 0.
    Refused { why: Refusal, line: usize },
    // Refusal 5 of a lent sheet: the number of the list that breaks a rule, and the place in it. A number and no Part of a sheet: write has
    // a text for any.
    BadSheet { list: u64, place: usize },
}

// A refusal that arose in no line of the job.
impl From<Refusal> for Failure {
    ghost from_gives = { λ why failure. failure ≡ outside why };

    fn from(why: Refusal) -> Failure {
        Failure::Refused { why, line: 0 }
    }
}

// What crediting and sizing refuse arose in no line either.
impl From<SheetError> for Failure {
    ghost from_gives = { λ error failure. failure ≡ failure_of error };

    fn from(error: SheetError) -> Failure {
        match error {
            SheetError::Unfit(fault) => Failure::BadSheet {
                list: fault.part.number(),
                place: fault.place,
            },
            SheetError::Refused(why) => Failure::from(why),
        }
    }
}

// The length of the longest text: a buffer of this size is never too short.
pub const LONGEST: usize = 161;

// The words of a basis, in the order of its cases.
const BASES: [&[u8]; 5] = [b"none", b"printed", b"between", b"start", b"held"];

// The same as an answer: room for the text of any outcome.
pub fn room() -> usize
    ensures { result ≡ longest }
{
    LONGEST
}

// Writes the text of an outcome at the start of buf, refused 13 where buf is shorter; the numbers of an outcome in memory have 64 bits,
// and so its text is never longer than the longest.
#[tactic(auto, using(writing::proofs::Writing::long_told))]
pub fn write(outcome: Result<Figures, Failure>, buf: &mut [u8]) -> Result<usize, Refusal>
    ensures value { result ≡ written_of buf.old (answer_text outcome) }
    ensures buf_after { buf.new ≡ buffer_of buf.old (answer_text outcome) }
    ensures wide { Wide outcome }
    ensures never_longer { length (answer_text outcome) ≤ longest }
{
    if too_short(outcome, buf.len()) {
        return Err(Refusal::BufferTooShort);
    }
    Ok(put_text(outcome, buf))
}

// Whether so many bytes are too few for the text of an outcome.
#[tactic(auto, using(crate::proofs::Texts::granted_wide, crate::proofs::Texts::refused_wide, crate::proofs::Texts::sheet_wide, crate::proofs::Texts::granted_never_longer, crate::proofs::Texts::refused_never_longer, crate::proofs::Texts::sheet_never_longer), unfolding(crate::specs::Lines::answer_text))]
fn too_short(outcome: Result<Figures, Failure>, len: usize) -> bool
    ensures value { result ≡ ltb len (length (answer_text outcome)) }
    ensures wide { Wide outcome }
    ensures never_longer { length (answer_text outcome) ≤ longest }
{
    match outcome {
        Ok(f) => granted_too_short(f, len),
        Err(Failure::Refused { why, line }) => len < refused_size(why, line),
        Err(Failure::BadSheet { .. }) => len < refused_size(Refusal::UnfitSheet, 0),
    }
}

// The same for a granted one, whose length is worked out only where the longest text would not fit.
fn granted_too_short(f: Figures, len: usize) -> bool
    ensures { result ≡ ltb len (length (answer_text (Ok f))) }
{
    if LONGEST <= len {
        return false;
    }
    len < granted_size(f)
}

// The length of a granted text: its keys and line ends, the 0 of its answer, the word of its basis, and the digits of its figures.
fn granted_size(f: Figures) -> usize
    ensures { result ≡ length (answer_text (Ok f)) }
{
    let how = f.basis;
    54 + basis_size(how)
        + writing::width(f.load.0)
        + writing::width(f.depth.0)
        + writing::width(f.percent.0)
        + writing::width(f.volume.0)
        + writing::width(f.removed.0)
}

// That of a basis's word.
fn basis_size(basis: Basis) -> usize
    ensures { (result ≡ length (basis_word basis)) × (result ≤ 7) }
{
    writing::word_size(&BASES, basis.number() as usize)
}

// That of a refused text: its keys and line ends, and the digits of its number and line.
fn refused_size(why: Refusal, line: usize) -> usize
    ensures { result ≡ length (answer_text (Err (Failure.Refused why line))) }
{
    14 + writing::width(refusal::number(why)) + writing::width(line as u64)
}

// Puts the text of an outcome at the start of buf and answers its length.
#[tactic(auto, using(crate::proofs::Texts::put_length_told, crate::proofs::Texts::put_buffer_told))]
fn put_text(outcome: Result<Figures, Failure>, buf: &mut [u8]) -> usize
    requires { length (answer_text outcome) ≤ length buf.old }
    ensures value { result ≡ put_length buf.old (answer_text outcome) }
    ensures buf_after { buf.new ≡ buffer_of buf.old (answer_text outcome) }
{
    let mut out = Writer::new(buf);
    put_lines(outcome, &mut out);
    out.at
}

// Puts the lines of an outcome, each behind the one before it.
fn put_lines(outcome: Result<Figures, Failure>, out: &mut Writer<'_>)
    ensures same { out.new.buf.ghost_name ≡ out.old.buf.ghost_name }
    ensures value { so_far out.new ≡ all_added (so_far out.old) (lines_of outcome) }
{
    match outcome {
        Ok(f) => put_granted(f, out),
        Err(Failure::Refused { why, line }) => put_refused(why, line, out),
        Err(Failure::BadSheet { .. }) => put_refused(Refusal::UnfitSheet, 0, out),
    }
}

// Those of a granted one: its figures.
#[tactic(auto, unfolding(writing::specs::Lines::line_with))]
fn put_granted(f: Figures, out: &mut Writer<'_>)
    ensures same { out.new.buf.ghost_name ≡ out.old.buf.ghost_name }
    ensures value { so_far out.new ≡ all_added (so_far out.old) (lines_of (Ok f)) }
{
    out.number(b"answer=", 0, b'\n');
    out.number(b"load=", f.load.0, b'\n');
    out.number(b"depth=", f.depth.0, b'\n');
    out.number(b"credit=", f.percent.0, b'\n');
    put_basis(f.basis, out);
    out.number(b"volume=", f.volume.0, b'\n');
    out.number(b"removed=", f.removed.0, b'\n');
}

// The line of a basis, which has a word for its value.
fn put_basis(basis: Basis, out: &mut Writer<'_>)
    ensures same { out.new.buf.ghost_name ≡ out.old.buf.ghost_name }
    ensures value { so_far out.new ≡ added (so_far out.old) (line_with (bytes "basis=") (basis_word basis)) }
{
    let k = basis.number() as usize;
    out.word(b"basis=", &BASES, k, b'\n');
}

// Those of a refused one: its number and the job's line.
#[tactic(auto, unfolding(writing::specs::Lines::line_with))]
fn put_refused(why: Refusal, line: usize, out: &mut Writer<'_>)
    ensures same { out.new.buf.ghost_name ≡ out.old.buf.ghost_name }
    ensures value { so_far out.new ≡ all_added (so_far out.old) (lines_of (Err (Failure.Refused why line))) }
{
    out.number(b"answer=", refusal::number(why), b'\n');
    out.number(b"line=", line as u64, b'\n');
}
