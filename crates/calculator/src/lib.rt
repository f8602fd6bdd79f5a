// Rules, "The three demands", the first: from a job text to its outcome, and to its answer text; on the published tables, or on a
// lent sheet in their place.
#![tactic(auto)]

ghost use Rattle.std.specs.Prelude.{◌≡◌};
ghost use Rattle.credit.specs.Answers.{answer_of};
ghost use Rattle.answer.specs.Lines.{answer_text};
ghost use Rattle.writing.specs.Writing.{written_of, buffer_of};
ghost use Rattle.calculator.specs.Outcome.{of_credit, of_load_job, of_task, by_tables, by_lent, outcome_of};
ghost use Rattle.calculator.specs.Inner.{sheet_for};

use answer::Failure;
use credit::{Figures, Wanted};
use curve::Basis;
use job::{Job, Reading, Task, Unread};
use refusal::Refusal;
use sheet::Sheet;
use site::Site;
use units::{Depth, Load, Percent, Volume};

// A load job tries 9 and 15 only; the other numbers of a load are 0, and there is no basis.
#[tactic(auto, using(crate::proofs::Finding::load_amount, crate::proofs::Finding::load_found))]
fn load_job(job: Job, site: Site) -> Result<Figures, Failure>
    ensures { result ≡ of_load_job job site }
{
    if job.amount != 0 {
        return Err(Refusal::AmountOutOfRange.into());
    }
    let load = loads::load(site, job.nutrient)?;
    Ok(Figures {
        load,
        depth: Depth(0),
        percent: Percent(0),
        basis: Basis::None,
        volume: Volume(0),
        removed: Load(0),
    })
}

// A credit or a size, on the published sheet of the job's practice, or on one that is lent in its place.
#[tactic(auto, using(crate::proofs::Finding::credit_refused, crate::proofs::Finding::credit_found, crate::proofs::Finding::on_published, crate::proofs::Finding::on_lent))]
fn by_sheet(job: Job, site: Site, lent: Option<Sheet>, wanted: Wanted) -> Result<Figures, Failure>
    ensures { result ≡ of_credit (answer_of (sheet_for lent.entry job.practice) wanted job.nutrient site job.mode job.rate.0) }
{
    let figures = match lent {
        Some(sheet) => credit::answer_on(site, job.nutrient, sheet, job.mode, job.rate, wanted)?,
        None => credit::answer(site, job.nutrient, job.practice, job.mode, job.rate, wanted)?,
    };
    Ok(figures)
}

// The outcome of a job that reads.
fn worked(job: Job, site: Site, lent: Option<Sheet>) -> Result<Figures, Failure>
    ensures { result ≡ of_task job.task (sheet_for lent.entry job.practice) job site }
{
    match job.task {
        Task::Load => load_job(job, site),
        Task::Credit => by_sheet(job, site, lent, Wanted::Credit(Volume(job.amount))),
        Task::Size => by_sheet(job, site, lent, Wanted::Size(Percent(job.amount))),
    }
}

// The outcome of a job text, by the published tables, or with a lent sheet in the place of the tables. That a text does not read is no
// From of Failure, since it and Unread are each of another crate.
fn outcome_by(text: &[u8], lent: Option<Sheet>) -> Result<Figures, Failure>
    ensures { result ≡ outcome_of (sheet_for lent.entry) text.now }
{
    let Reading { job, site } = job::read(text).map_err(|Unread { why, line }| Failure::Refused {
        why,
        line,
    })?;
    worked(job, site, lent)
}

// The outcome of a job text, by the published tables.
pub fn outcome(text: &[u8]) -> Result<Figures, Failure>
    ensures { result ≡ outcome_of by_tables text.now }
{
    outcome_by(text, None)
}

// The outcome of a job text with a lent sheet in the place of the tables: two calls, as C has them, each with a definition of its own.
pub fn outcome_on(text: &[u8], sheet: Sheet) -> Result<Figures, Failure>
    ensures { result ≡ outcome_of (by_lent sheet.entry.depths.now sheet.entry.rates.now sheet.entry.percents.now) text.now }
{
    outcome_by(text, Some(sheet))
}

// The answer text of a job text, into a lent buffer.
pub fn answer(text: &[u8], buf: &mut [u8]) -> Result<usize, Refusal>
    ensures value { result ≡ written_of buf.old (answer_text (outcome_of by_tables text.now)) }
    ensures buf_after { buf.new ≡ buffer_of buf.old (answer_text (outcome_of by_tables text.now)) }
{
    answer::write(outcome(text), buf)
}

// The same with a lent sheet in the place of the tables.
pub fn answer_on(text: &[u8], sheet: Sheet, buf: &mut [u8]) -> Result<usize, Refusal>
    ensures value { result ≡ written_of buf.old (answer_text (outcome_of (by_lent sheet.entry.depths.now sheet.entry.rates.now sheet.entry.percents.now) text.now)) }
    ensures buf_after { buf.new ≡ buffer_of buf.old (answer_text (outcome_of (by_lent sheet.entry.depths.now sheet.entry.rates.now sheet.entry.percents.now) text.now)) }
{
    answer::write(outcome_on(text, sheet), buf)
}
