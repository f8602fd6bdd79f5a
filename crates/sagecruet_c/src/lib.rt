// The C interface: each call of `sagecruet` under the name that include/sagecruet.h has for it, with its clauses. Each stands twice, here
// and there: a crate is a static library for C or one that others name, and not both.
#![tactic(auto)]

ghost use Rattle.std.specs.Prelude.{◌≡◌};
ghost use Rattle.sheet.specs.Sheet.{verdict_of};
ghost use Rattle.curve.specs.Answers.{percent_answer};
ghost use Rattle.probe.specs.Readings.{rate_of};
ghost use Rattle.job.specs.Fault.{fault_of};
ghost use Rattle.answer.specs.Lines.{answer_text};
ghost use Rattle.writing.specs.Writing.{written_of, buffer_of};
ghost use Rattle.calculator.specs.Outcome.{by_tables, by_lent, outcome_of};
ghost use Rattle.review.specs.Checking.{check_of, given};
ghost use Rattle.rewrite.specs.Rewriting.{rewritten_of};
ghost use Rattle.sagecruet.specs.Codes.{told, codes_written, codes_buffer};
ghost use Rattle.sagecruet.specs.Numbers.{of_written, of_job, of_span, of_check, of_verdict, of_percent, of_rate, mode_of, reading_in};

use sagecruet::{Check, JobWritten, Part, PercentAnswer, Value, Verdict};

// The answer text of a job on the published tables.
#[unsafe(no_mangle)]
pub extern "C" fn sagecruet_answer(text: &[u8], buf: &mut [u8]) -> usize
    ensures value { result ≡ of_written (written_of buf.old (answer_text (outcome_of by_tables text.now))) }
    ensures buf_after { buf.new ≡ buffer_of buf.old (answer_text (outcome_of by_tables text.now)) }
{
    sagecruet::sagecruet_answer(text, buf)
}

// The answer text of a job on a lent sheet.
#[unsafe(no_mangle)]
pub extern "C" fn sagecruet_answer_on(
    text: &[u8],
    depths: &[u64],
    rates: &[u64],
    percents: &[u64],
    buf: &mut [u8],
) -> usize
    ensures value { result ≡ of_written (written_of buf.old (answer_text (outcome_of (by_lent depths.now rates.now percents.now) text.now))) }
    ensures buf_after { buf.new ≡ buffer_of buf.old (answer_text (outcome_of (by_lent depths.now rates.now percents.now) text.now)) }
{
    sagecruet::sagecruet_answer_on(text, depths, rates, percents, buf)
}

// The offending part of a job text.
#[unsafe(no_mangle)]
pub extern "C" fn sagecruet_fault(text: &[u8]) -> Part
    ensures { result ≡ of_span (fault_of text.now) }
{
    sagecruet::sagecruet_fault(text)
}

// An answer text that somebody else made, checked against the one of a job on the published tables.
#[unsafe(no_mangle)]
pub extern "C" fn sagecruet_check(text: &[u8], claimed: &[u8]) -> Check
    ensures { result ≡ of_check (given claimed.now (check_of text.now claimed.now)) }
{
    sagecruet::sagecruet_check(text, claimed)
}

// A stored job text, rewritten in its place.
#[unsafe(no_mangle)]
pub extern "C" fn sagecruet_rewrite(text: &mut [u8])
    ensures { text.new ≡ rewritten_of text.old }
{
    sagecruet::sagecruet_rewrite(text)
}

// A job text, written from numbers.
#[unsafe(no_mangle)]
pub extern "C" fn sagecruet_job(
    practice: u64,
    nutrient: u64,
    mode: u64,
    rate: u64,
    task: u64,
    amount: u64,
    areas: &[u64],
    text: &mut [u8],
) -> JobWritten
    ensures value { result ≡ of_job (codes_written text.old (told practice nutrient mode rate task amount areas.now)) }
    ensures text_after { text.new ≡ codes_buffer text.old (told practice nutrient mode rate task amount areas.now) }
{
    sagecruet::sagecruet_job(practice, nutrient, mode, rate, task, amount, areas, text)
}

// The test of a sheet.
#[unsafe(no_mangle)]
pub extern "C" fn sagecruet_sheet(depths: &[u64], rates: &[u64], percents: &[u64]) -> Verdict
    ensures { result ≡ of_verdict (verdict_of depths.now rates.now percents.now) }
{
    sagecruet::sagecruet_sheet(depths, rates, percents)
}

// The percent of a sheet at a rate and a depth, with its basis.
#[unsafe(no_mangle)]
pub extern "C" fn sagecruet_percent(
    depths: &[u64],
    rates: &[u64],
    percents: &[u64],
    mix: bool,
    rate: u64,
    depth: u64,
) -> PercentAnswer
    ensures { result ≡ of_percent (percent_answer depths.now rates.now percents.now (mode_of mix) rate depth) }
{
    sagecruet::sagecruet_percent(depths, rates, percents, mix, rate, depth)
}

// The rate of a probe reading.
#[unsafe(no_mangle)]
pub extern "C" fn sagecruet_reading(millimetres: bool, reading: f32) -> Value
    ensures { result ≡ of_rate (rate_of (reading_in millimetres reading)) }
{
    sagecruet::sagecruet_reading(millimetres, reading)
}
