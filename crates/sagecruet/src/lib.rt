// What the library answers, as numbers and texts: the calls that `sagecruet_c` hands to C. include/sagecruet.h says the same for C.
#![tactic(auto)]

ghost use Rattle.std.specs.Prelude.{◌≡◌};
ghost use Rattle.sheet.specs.Sheet.{verdict_of};
ghost use Rattle.curve.specs.Answers.{percent_answer};
ghost use Rattle.probe.specs.Readings.{rate_of};
ghost use Rattle.job.specs.Fault.{fault_of};
ghost use Rattle.answer.specs.Lines.{answer_text};
ghost use Rattle.writing.specs.Writing.{written_of, buffer_of};
ghost use Rattle.calculator.specs.Outcome.{by_tables, by_lent, outcome_of};
ghost use Rattle.review.specs.Checking.{check_of, given};
ghost use Rattle.rewrite.specs.Rewriting.{rewritten_of};
ghost use Rattle.sagecruet.specs.Codes.{told, codes_written, codes_buffer};
ghost use Rattle.sagecruet.specs.Numbers.{of_written, of_job, of_span, of_check, of_verdict, of_percent, of_rate, mode_of, reading_in};

use curve::{Basis, Mode, SheetError};
use probe::Reading;
use refusal::Refusal;
use sheet::{Fault, Sheet};
use units::{Depth, Percent, Rate};

mod codes;

// The structs of include/sagecruet.h: C has no enum that holds a value, so the number given back stands beside values that are 0 where it
// refuses. The functions of_.. turn what the crates answer into them.

// A part of a job text: the place of its first byte, and its length.
#[repr(C)]
#[derive(Clone, Copy)]
pub struct Part {
    pub from: usize,
    pub len: usize,
}

// The number of the first wrong line of an answer text, 0 where it is right; the place of the line's first byte, and its length.
#[repr(C)]
#[derive(Clone, Copy)]
pub struct Check {
    pub line: u64,
    pub from: usize,
    pub len: usize,
}

// A number given back, and the length of the job text that was written.
#[repr(C)]
#[derive(Clone, Copy)]
pub struct JobWritten {
    pub answer: u64,
    pub len: usize,
}

// What the test of a sheet says: 0, or 5 with the list and the place.
#[repr(C)]
#[derive(Clone, Copy)]
pub struct Verdict {
    pub answer: u64,
    pub list: u64,
    pub place: u64,
}

// A number given back, the percent and the number of its basis; beside 5 the list and the place.
#[repr(C)]
#[derive(Clone, Copy)]
pub struct PercentAnswer {
    pub answer: u64,
    pub percent: u64,
    pub basis: u64,
    pub list: u64,
    pub place: u64,
}

// A number given back, and the rate that was asked for.
#[repr(C)]
#[derive(Clone, Copy)]
pub struct Value {
    pub answer: u64,
    pub value: u64,
}

// The length of what was written.
fn of_written(written: Result<usize, Refusal>) -> usize
    ensures { result ≡ of_written written }
{
    match written {
        Ok(length) => length,
        Err(_) => 0,
    }
}

fn of_job(written: Result<usize, Refusal>) -> JobWritten
    ensures { result ≡ of_job written }
{
    match written {
        Ok(length) => JobWritten {
            answer: 0,
            len: length,
        },
        Err(why) => JobWritten {
            answer: refusal::number(why),
            len: 0,
        },
    }
}

fn of_verdict(verdict: Result<(), Fault>) -> Verdict
    ensures { result ≡ of_verdict verdict }
{
    match verdict {
        Ok(()) => Verdict {
            answer: 0,
            list: 0,
            place: 0,
        },
        Err(fault) => Verdict {
            answer: refusal::number(Refusal::UnfitSheet),
            list: fault.part.number(),
            place: fault.place as u64,
        },
    }
}

fn of_percent(found: Result<(Percent, Basis), SheetError>) -> PercentAnswer
    ensures { result ≡ of_percent found }
{
    match found {
        Ok((percent, basis)) => PercentAnswer {
            answer: 0,
            percent: percent.0,
            basis: basis.number(),
            list: 0,
            place: 0,
        },
        Err(SheetError::Unfit(fault)) => PercentAnswer {
            answer: refusal::number(Refusal::UnfitSheet),
            percent: 0,
            basis: 0,
            list: fault.part.number(),
            place: fault.place as u64,
        },
        Err(SheetError::Refused(why)) => PercentAnswer {
            answer: refusal::number(why),
            percent: 0,
            basis: 0,
            list: 0,
            place: 0,
        },
    }
}

fn of_rate(found: Result<Rate, Refusal>) -> Value
    ensures { result ≡ of_rate found }
{
    match found {
        Ok(rate) => Value {
            answer: 0,
            value: rate.0,
        },
        Err(why) => Value {
            answer: refusal::number(why),
            value: 0,
        },
    }
}

fn mode_of(mix: bool) -> Mode
    ensures { result ≡ mode_of mix }
{
    if mix {
        return Mode::Mix;
    }
    Mode::Step
}

fn reading_in(millimetres: bool, reading: f32) -> Reading
    ensures { result ≡ reading_in millimetres reading }
{
    if millimetres {
        return Reading::MillimetresPerHour(reading);
    }
    Reading::InchesPerHour(reading)
}

// The answer text of a job on the published tables.
pub fn sagecruet_answer(text: &[u8], buf: &mut [u8]) -> usize
    ensures value { result ≡ of_written (written_of buf.old (answer_text (outcome_of by_tables text.now))) }
    ensures buf_after { buf.new ≡ buffer_of buf.old (answer_text (outcome_of by_tables text.now)) }
{
    of_written(calculator::answer(text, buf))
}

// The answer text of a job on a lent sheet: a call of its own, as C has it. C lends three lists, which become a Sheet here.
pub fn sagecruet_answer_on(
    text: &[u8],
    depths: &[u64],
    rates: &[u64],
    percents: &[u64],
    buf: &mut [u8],
) -> usize
    ensures value { result ≡ of_written (written_of buf.old (answer_text (outcome_of (by_lent depths.now rates.now percents.now) text.now))) }
    ensures buf_after { buf.new ≡ buffer_of buf.old (answer_text (outcome_of (by_lent depths.now rates.now percents.now) text.now)) }
{
    let sheet = Sheet {
        depths,
        rates,
        percents,
    };
    of_written(calculator::answer_on(text, sheet, buf))
}

// The offending part of a job text.
pub fn sagecruet_fault(text: &[u8]) -> Part
    ensures { result ≡ of_span (fault_of text.now) }
{
    let span = job::fault_span(text);
    Part {
        from: span.from,
        len: span.to - span.from,
    }
}

// An answer text that somebody else made, checked against the one of a job on the published tables.
pub fn sagecruet_check(text: &[u8], claimed: &[u8]) -> Check
    ensures { result ≡ of_check (given claimed.now (check_of text.now claimed.now)) }
{
    match review::check(text, claimed) {
        Ok(()) => Check {
            line: 0,
            from: claimed.len(),
            len: 0,
        },
        Err(wrong) => Check {
            line: wrong.line as u64,
            from: wrong.from,
            len: wrong.to - wrong.from,
        },
    }
}

// A stored job text, rewritten in its place.
pub fn sagecruet_rewrite(text: &mut [u8])
    ensures { text.new ≡ rewritten_of text.old }
{
    rewrite::rewrite(text)
}

// A job text, written from numbers.
pub fn sagecruet_job(
    practice: u64,
    nutrient: u64,
    mode: u64,
    rate: u64,
    task: u64,
    amount: u64,
    areas: &[u64],
    text: &mut [u8],
) -> JobWritten
    ensures value { result ≡ of_job (codes_written text.old (told practice nutrient mode rate task amount areas.now)) }
    ensures text_after { text.new ≡ codes_buffer text.old (told practice nutrient mode rate task amount areas.now) }
{
    of_job(codes::write(practice, nutrient, mode, rate, task, amount, areas, text))
}

// The test of a sheet.
pub fn sagecruet_sheet(depths: &[u64], rates: &[u64], percents: &[u64]) -> Verdict
    ensures { result ≡ of_verdict (verdict_of depths.now rates.now percents.now) }
{
    let sheet = Sheet {
        depths,
        rates,
        percents,
    };
    of_verdict(sheet.judge())
}

// The percent of a sheet at a rate and a depth, with its basis.
pub fn sagecruet_percent(
    depths: &[u64],
    rates: &[u64],
    percents: &[u64],
    mix: bool,
    rate: u64,
    depth: u64,
) -> PercentAnswer
    ensures { result ≡ of_percent (percent_answer depths.now rates.now percents.now (mode_of mix) rate depth) }
{
    let sheet = Sheet {
        depths,
        rates,
        percents,
    };
    of_percent(curve::percent(sheet, mode_of(mix), Rate(rate), Depth(depth)))
}

// The rate of a probe reading.
pub fn sagecruet_reading(millimetres: bool, reading: f32) -> Value
    ensures { result ≡ of_rate (rate_of (reading_in millimetres reading)) }
{
    of_rate(probe::rate(reading_in(millimetres, reading)))
}
