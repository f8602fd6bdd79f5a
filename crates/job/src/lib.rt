// Rules, "Job and answer text": the job text read, and the offending part of one that is refused 1.
#![tactic(auto)]

ghost use Rattle.std.specs.Prelude.{◌≡◌};
ghost use Rattle.std.proofs.Common.{rules};
ghost use Rattle.text.specs.Part.{Part};
ghost use Rattle.job.specs.Tasks.{tasks, task_place};
ghost use Rattle.job.specs.Reading.{reading_of, site_read};
ghost use Rattle.job.specs.Fault.{line_span, fault_of};

use curve::Mode;
use refusal::Refusal;
use site::Site;
use units::{Coded, Nutrient, Rate};

mod areas;
mod head;
mod values;
pub mod words;

#[derive(Clone, Copy, Debug, PartialEq, Eq)]
pub enum Task {
    Load,
    Credit,
    Size,
}

impl Coded for Task {
    ghost cases = { tasks };

    ghost place = { task_place };

    ghost in_order = { Prim.search rules };

    fn cases() -> &'static [Task] {
        &[Task::Load, Task::Credit, Task::Size]
    }

    fn place(self) -> usize {
        self as usize
    }
}

// What the first six lines of a job say.
#[derive(Clone, Copy)]
pub struct Job {
    // A number and no enum: one above 8 is refused 4, or 1 where it is written (writable of jobtext).
    pub practice: u64,
    pub nutrient: Nutrient,
    pub mode: Mode,
    pub rate: Rate,
    pub task: Task,
    // 0 for load, a volume for credit, a target percent for size. It stands beside the task and in no case of it: a load job whose amount
    // is not 0 reads, and is refused 9 (the theorem LoadJob of calculator).
    pub amount: u64,
}

// Why a text does not read, with its line, counted from 1: line 0 is that of a text that is too long.
#[derive(Clone, Copy, Debug, PartialEq, Eq)]
pub struct Unread {
    pub why: Refusal,
    pub line: usize,
}

impl Unread {
    // A line that says nothing.
    fn malformed(line: usize) -> Unread
        ensures { result ≡ record { why = Refusal.MalformedText; line = line } }
    {
        Unread {
            why: Refusal::MalformedText,
            line,
        }
    }
}

// The places of a text at which a part of it starts and stops. No slice: fault_of gives places, and C is told them; fault cuts the slice.
#[derive(Clone, Copy)]
pub struct Span {
    pub from: usize,
    pub to: usize,
}

// A job text read: its job, and the site of its area lines.
#[derive(Clone, Copy)]
pub struct Reading {
    pub job: Job,
    pub site: Site,
}

// The longest job text, in bytes.
pub const MOST_BYTES: usize = 4096;

// The job and the site that a text says, or the refusal with its line.
#[tactic(auto, using(crate::proofs::Whole::reading_long, crate::proofs::Whole::reading_bad, crate::proofs::Whole::reading_areas))]
pub fn read(text: &[u8]) -> Result<Reading, Unread>
    ensures { result ≡ reading_of text.now }
{
    if MOST_BYTES < text.len() {
        return Err(Unread::malformed(0));
    }
    let (job, at) = head::read_head(text)?;
    areas::read_areas(job, text, at)
}

// The site that stands beside what a text says: that of its job, and the empty one beside a refusal.
pub fn site_beside(text: &[u8]) -> Site
    ensures { result ≡ site_read (reading_of text.now) }
{
    match read(text) {
        Ok(reading) => reading.site,
        Err(_) => Site::empty(),
    }
}

// Where the offending line of a text that is refused 1 lies, without its line feed; the end of any other text.
#[tactic(auto, using(crate::proofs::Faults::fault_granted))]
pub fn fault_span(text: &[u8]) -> Span
    ensures { result ≡ fault_of text.now }
{
    match read(text) {
        Err(Unread { why, line }) if why == Refusal::MalformedText => line_span(text, line),
        _ => Span {
            from: text.len(),
            to: text.len(),
        },
    }
}

// That part of the text itself.
pub fn fault(text: &[u8]) -> &[u8]
    ensures { Part text.entry (fault_of text.now).from (fault_of text.now).to result }
{
    let span = fault_span(text);
    text::part(text, span.from, span.to)
}

// Where a line of a text lies, counted from 1, without its line feed; for line 0 the start.
#[tactic(auto, using(crate::proofs::Faults::line_start, crate::proofs::Faults::line_there))]
fn line_span(text: &[u8], line: usize) -> Span
    ensures { result ≡ line_span text.now line }
{
    if line < 1 {
        return Span { from: 0, to: 0 };
    }
    let from = text::start(text, b'\n', line - 1);
    Span {
        from,
        to: text::next(text, b'\n', from),
    }
}
