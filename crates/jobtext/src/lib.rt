// Rules, "Job and answer text" and "Writing a job": a job and a site, written as a job text into a lent buffer.
#![tactic(auto)]

ghost use Rattle.std.specs.Prelude.{◌≡◌, ◌≤◌, true, ltb, length, map};
ghost use Rattle.writing.specs.Writing.{put_length, buffer_of};
ghost use Rattle.writing.specs.Lines.{word_at};
ghost use Rattle.writing.specs.Writer.{so_far, all_added};
ghost use Rattle.jobtext.specs.Text.{area_text, head_texts, job_text, job_written, job_buffer, longest};
ghost use Rattle.jobtext.specs.Inner.{head_text, all_short, areas_length, area_fields, job_pieces, passes};

use job::{Job, words};
use refusal::Refusal;
use site::{Site, SubArea};
use units::Coded;
use writing::Writer;

// The length of the longest text: a buffer of this size is never too short.
pub const LONGEST: usize = 837;

// The same as an answer: room for the text of any job.
pub fn room() -> usize
    ensures { result ≡ longest }
{
    LONGEST
}

// The first number that has more than 14 digits.
const FIFTEEN_DIGITS: u64 = 100_000_000_000_000;

// Writes a job with its site at the start of buf: the record is judged, then the job is tried, then the length of buf.
pub fn write(job: Job, site: Site, buf: &mut [u8]) -> Result<usize, Refusal>
    ensures value { result ≡ job_written buf.old job site }
    ensures buf_after { buf.new ≡ job_buffer buf.old job site }
{
    site.judge()?;
    if !passes(job, site.count) {
        return Err(Refusal::MalformedText);
    }
    let parts = &site.parts[..site.count];
    if too_short(job, parts, buf.len()) {
        return Err(Refusal::BufferTooShort);
    }
    Ok(put_text(job, parts, buf))
}

// What is tried of a job, and of the count of a record that is judged fine: a sub-area, a practice that has a word, and numbers of at
// most 14 digits.
#[tactic(auto, using(crate::proofs::Writing::passes_is))]
fn passes(job: Job, count: usize) -> bool
    ensures { result ≡ passes job count }
{
    1 <= count && job.practice < 9 && job.rate.0 < FIFTEEN_DIGITS && job.amount < FIFTEEN_DIGITS
}

// Whether so many bytes are too few for the text, whose length is worked out only where the longest would not fit.
#[tactic(auto, using(crate::proofs::Writing::long_enough, crate::proofs::Sizes::sized_told, crate::proofs::Sizes::areas_few))]
fn too_short(job: Job, parts: &[SubArea], len: usize) -> bool
    requires { length (job_text job parts.now) ≤ longest }
    ensures { result ≡ ltb len (length (job_text job parts.now)) }
{
    if LONGEST <= len {
        return false;
    }
    len < head_size(job) + areas_size(parts)
}

// The length of the first six lines: their keys and line ends, the letter of the nutrient, and the other words and digits.
fn head_size(job: Job) -> usize
    ensures { (result ≡ length (head_text job)) × (result ≤ 114) }
{
    let practice = job.practice as usize;
    47 + word_size(&words::PRACTICES, practice)
        + word_size(&words::MODES, job.mode.place())
        + writing::width(job.rate.0)
        + word_size(&words::TASKS, job.task.place())
        + writing::width(job.amount)
}

// That of the line of a sub-area: its key, its commas and its line end, the three letters of the cover, and the other fields.
fn area_size(part: &SubArea) -> usize
    ensures { result ≡ length (area_text part.now) }
{
    12 + word_size(&words::LANDS, part.land.place())
        + word_size(&words::SOILS, part.soil.place())
        + writing::width(part.area.0)
}

// That of a word, of which none has more than nine bytes.
#[tactic(auto, using(crate::proofs::Short::size_short))]
fn word_size(words: &[&[u8]], k: usize) -> usize
    requires { all_short 9 (map (λ w. w.now) words.now) ≡ true }
    ensures { (result ≡ length (word_at (map (λ w. w.now) words.now) k)) × (result ≤ 9) }
{
    writing::word_size(words, k)
}

// That of the lines of all sub-areas.
fn areas_size(parts: &[SubArea]) -> usize
    requires { areas_length parts.now ≤ longest }
    ensures { result ≡ areas_length parts.now }
{
    parts.iter().map(area_size).sum()
}

// Puts the text at the start of buf and answers its length.
#[tactic(auto, using(crate::proofs::Pieces::put_length_told, crate::proofs::Pieces::put_buffer_told))]
fn put_text(job: Job, parts: &[SubArea], buf: &mut [u8]) -> usize
    requires { length (job_text job parts.now) ≤ length buf.old }
    ensures value { result ≡ put_length buf.old (job_text job parts.now) }
    ensures buf_after { buf.new ≡ buffer_of buf.old (job_text job parts.now) }
{
    let mut out = Writer::new(buf);
    put_lines(job, parts, &mut out);
    out.at
}

// Puts the first six lines, and then the line of each sub-area behind the one before it.
#[tactic(auto, using(crate::proofs::Pieces::areas_more, crate::proofs::Pieces::areas_all))]
fn put_lines(job: Job, parts: &[SubArea], out: &mut Writer<'_>)
    ensures same { out.new.buf.ghost_name ≡ out.old.buf.ghost_name }
    ensures value { so_far out.new ≡ all_added (so_far out.old) (job_pieces job parts.now) }
{
    put_head(job, out);
    for part in parts {
        put_area(part, out);
    }
}

// Puts the first six lines.
fn put_head(job: Job, out: &mut Writer<'_>)
    ensures same { out.new.buf.ghost_name ≡ out.old.buf.ghost_name }
    ensures value { so_far out.new ≡ all_added (so_far out.old) (head_texts job) }
{
    let practice = job.practice as usize;
    let nutrient = job.nutrient.place();
    let mode = job.mode.place();
    let task = job.task.place();
    out.word(b"practice=", &words::PRACTICES, practice, b'\n');
    out.word(b"nutrient=", &words::NUTRIENTS, nutrient, b'\n');
    out.word(b"mode=", &words::MODES, mode, b'\n');
    out.number(b"rate=", job.rate.0, b'\n');
    out.word(b"task=", &words::TASKS, task, b'\n');
    out.number(b"amount=", job.amount, b'\n');
}

// Puts the line of a sub-area: three words, each with a comma behind it, and its area.
fn put_area(part: &SubArea, out: &mut Writer<'_>)
    ensures same { out.new.buf.ghost_name ≡ out.old.buf.ghost_name }
    ensures value { so_far out.new ≡ all_added (so_far out.old) (area_fields part.now) }
{
    let land = part.land.place();
    let cover = part.cover.place();
    let soil = part.soil.place();
    out.word(b"area=", &words::LANDS, land, b',');
    out.word(b"", &words::COVERS, cover, b',');
    out.word(b"", &words::SOILS, soil, b',');
    out.number(b"", part.area.0, b'\n');
}
