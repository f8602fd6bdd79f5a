// A job told by numbers, written.
ghost use Rattle.std.specs.Prelude.{◌≡◌, []};
ghost use Rattle.jobtext.specs.Text.{job_written, job_buffer};
ghost use Rattle.jobtext.specs.Records.{site_of};
ghost use Rattle.sagecruet.specs.Codes.{told, part_in, worded, parts_in, all_worded, head_worded, job_in, codes_written, codes_buffer};
ghost use Rattle.sagecruet.specs.Inner.{Fours, where_worded};

use curve::Mode;
use job::{Job, Task};
use refusal::Refusal;
use site::{Cover, LandUse, Site, Soil, SubArea};
use units::{Area, Coded, Nutrient, Rate};

// The job of six numbers, refused 1 where a code has no word.
#[tactic(auto, using(crate::proofs::Words::head_lists))]
fn job_of(
    practice: u64,
    nutrient: u64,
    mode: u64,
    rate: u64,
    task: u64,
    amount: u64,
) -> Result<Job, Refusal>
    ensures { result ≡ where_worded (head_worded nutrient mode task) (job_in (told practice nutrient mode rate task amount [])) }
{
    Ok(Job {
        practice,
        nutrient: Nutrient::coded(nutrient)?,
        mode: Mode::coded(mode)?,
        rate: Rate(rate),
        task: Task::coded(task)?,
        amount,
    })
}

// The sub-area of four numbers, refused 1 where a code has no word.
#[tactic(auto, using(crate::proofs::Words::part_lists))]
fn part_of(land: u64, cover: u64, soil: u64, area: u64) -> Result<SubArea, Refusal>
    ensures { result ≡ where_worded (worded land cover soil) (part_in land cover soil area) }
{
    Ok(SubArea {
        land: LandUse::coded(land)?,
        cover: Cover::coded(cover)?,
        soil: Soil::coded(soil)?,
        area: Area(area),
    })
}

// The record of so many sub-areas of a list, which are stored one by one in an empty site.
fn record_of(areas: &[u64], count: usize) -> Result<Site, Refusal>
    requires { Fours count areas.now }
    ensures { result ≡ where_worded (all_worded count areas.now) (site_of (parts_in count areas.now)) }
{
    let mut site = Site::empty();
    let mut at = 0;
    for i in 0..count {
        let part = part_of(areas[at], areas[at + 1], areas[at + 2], areas[at + 3])?;
        let number = site.counter;
        site.parts[i] = part;
        site.numbers[i] = number;
        site.count = i + 1;
        site.counter = number + 1;
        at += 4;
    }
    Ok(site)
}

// The list is tried, then the codes; then the job is written with the record of its sub-areas. The arguments are those of the call for C,
// which has numbers for the cases, and four to a sub-area in one list.
pub fn write(
    practice: u64,
    nutrient: u64,
    mode: u64,
    rate: u64,
    task: u64,
    amount: u64,
    areas: &[u64],
    text: &mut [u8],
) -> Result<usize, Refusal>
    ensures value { result ≡ codes_written text.old (told practice nutrient mode rate task amount areas.now) }
    ensures text_after { text.new ≡ codes_buffer text.old (told practice nutrient mode rate task amount areas.now) }
{
    if areas.len() % 4 != 0 {
        return Err(Refusal::MalformedText);
    }
    let count = areas.len() / 4;
    if site::MOST_PARTS < count {
        return Err(Refusal::SiteFull);
    }
    let job = job_of(practice, nutrient, mode, rate, task, amount)?;
    let site = record_of(areas, count)?;
    jobtext::write(job, site, text)
}
