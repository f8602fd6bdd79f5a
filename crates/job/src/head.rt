// The first six lines of a job: practice, nutrient, mode, rate, task and amount.
ghost use Rattle.job.specs.Inner.{Headed};

use super::{Job, Unread, values, words};
use units::Rate;

// The job that the head of a text says, with the place behind it, or the first of its lines that says nothing.
pub fn read_head(text: &[u8]) -> Result<(Job, usize), Unread>
    ensures { Headed text.now result }
{
    let at = text::behind(text, 0, b"practice=");
    let read = values::word(text, at, &words::PRACTICES, b'\n');
    let (practice, at) = read.ok_or(Unread::malformed(1))?;
    let at = text::behind(text, at, b"nutrient=");
    let read = values::case(text, at, &words::NUTRIENTS, b'\n');
    let (nutrient, at) = read.ok_or(Unread::malformed(2))?;
    let at = text::behind(text, at, b"mode=");
    let read = values::case(text, at, &words::MODES, b'\n');
    let (mode, at) = read.ok_or(Unread::malformed(3))?;
    let at = text::behind(text, at, b"rate=");
    let read = values::number(text, at);
    let (rate, at) = read.ok_or(Unread::malformed(4))?;
    let at = text::behind(text, at, b"task=");
    let read = values::case(text, at, &words::TASKS, b'\n');
    let (task, at) = read.ok_or(Unread::malformed(5))?;
    let at = text::behind(text, at, b"amount=");
    let read = values::number(text, at);
    let (amount, at) = read.ok_or(Unread::malformed(6))?;
    let job = Job {
        practice: practice as u64,
        nutrient,
        mode,
        rate: Rate(rate),
        task,
        amount,
    };
    Ok((job, at))
}
