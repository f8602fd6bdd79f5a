// The area lines of a job, `area=USE,COVER,SOIL,AREA`, added one by one to a site.
ghost use Rattle.std.specs.Prelude.{◌≡◌, drop};
ghost use Rattle.site.specs.Parts.{empty_site};
ghost use Rattle.job.specs.Lines.{lines_of};
ghost use Rattle.job.specs.Areas.{areas_from};
ghost use Rattle.job.specs.Inner.{Lined};

use super::{Job, Reading, Unread, values, words};
use site::{Site, SubArea};
use units::Area;

// The sub-area that the area line at a place of a text says, with the place behind the line.
fn read_area(text: &[u8], at: usize) -> Option<(SubArea, usize)>
    ensures { Lined text.now at result }
{
    let at = text::behind(text, at, b"area=");
    let (land, at) = values::case(text, at, &words::LANDS, b',')?;
    let (cover, at) = values::case(text, at, &words::COVERS, b',')?;
    let (soil, at) = values::case(text, at, &words::SOILS, b',')?;
    let (area, at) = values::number(text, at)?;
    let part = SubArea {
        land,
        cover,
        soil,
        area: Area(area),
    };
    Some((part, at))
}

// The areas of a text from a place on, at which line 7 starts: 1 or more lines, up to the end of the text.
#[tactic(auto, using(crate::proofs::Walking::walked_missing))]
pub fn read_areas(job: Job, text: &[u8], from: usize) -> Result<Reading, Unread>
    ensures { result ≡ areas_from job (lines_of (drop from text.now)) 7 empty_site }
{
    let mut at = from;
    let mut line = 7;
    let mut site = Site::empty();
    let mut total = Area(0);
    // How far a line reaches is known only when it is read, so the place goes on by hand, and its line with it.
    // Where a line starts is known when the one before it is read.
    while at < text.len() {
        let (part, next) = read_area(text, at).ok_or(Unread::malformed(line))?;
        let answer = site::add_answer(site.count, site.counter, total, part);
        total = answer.map_err(|why| Unread { why, line })?;
        site.parts[site.count] = part;
        site.numbers[site.count] = site.counter;
        site.count += 1;
        site.counter += 1;
        at = next;
        line += 1;
    }
    if site.count < 1 {
        return Err(Unread::malformed(line));
    }
    Ok(Reading { job, site })
}
