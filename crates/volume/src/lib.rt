// Rules, "Volume of a depth": V at a depth, and the depth of a volume.
#![tactic(auto)]

ghost use Rattle.std.specs.Prelude.{◌≡◌, ◌≤◌};
ghost use Rattle.units.specs.Limits.{most_area, highest_depth};
ghost use Rattle.runoff.specs.Runoff.{runoff_of, runoff_sheet};
ghost use Rattle.site.specs.Parts.{parts_of};
ghost use Rattle.site.specs.Inner.{Fine};
ghost use Rattle.volume.specs.Volume.{depth_within};
ghost use Rattle.volume.specs.Areas.{area_place, areas_of, total_of, within_limit, volume_from};
ghost use Rattle.volume.specs.Answers.{not_past, gathered_answer, volume_answer, depth_answer, volume_on, depth_on};

use refusal::Refusal;
use site::{Cover, Site, SubArea};
use units::{Area, Column, Depth, Volume};

// The impervious area, then the pervious area of each soil column: six by their place and no struct of fields, since the definitions go by
// area_at and SixAreasSuffice by the list.
#[derive(Clone, Copy)]
pub struct Areas {
    pub of: [Area; 6],
}

// The place of a sub-area's area among the six.
pub fn area_place(part: SubArea) -> usize
    ensures { (result ≡ area_place part) × (result ≤ 5) }
{
    match part.cover {
        Cover::Imp => 0,
        Cover::Per => units::place(site::runoff_column(part.soil)) + 1,
    }
}

// The six areas of a site that is judged fine.
#[tactic(auto, using(crate::proofs::Placing::placed_fits, crate::proofs::Placing::all_placed))]
fn six_areas(site: Site) -> Areas
    requires { Fine site }
    ensures { result.of ≡ areas_of (parts_of site) }
{
    let mut of = [Area(0); 6];
    for &part in &site.parts[..site.count] {
        of[area_place(part)].0 += part.area.0;
    }
    Areas { of }
}

// The soil columns, in the order of the six areas.
const COLUMNS: [Column; 5] = [Column::A, Column::B, Column::C, Column::CD, Column::D];

// V(200) of the largest site, all of it impervious: no site has a larger V(200).
const FULLEST: u64 = 7_260_000_000_000;

// What V is worked out from: the six areas of a site, and the runoff sheet.
#[derive(Clone, Copy)]
struct Ground<'a> {
    areas: Areas,
    sheet: &'a [u16; 1005],
    ghost small: { total_of areas.of ≤ most_area },
    ghost constant: { sheet.now ≡ runoff_sheet },
}

impl Ground<'_> {
    // The runoff on a soil column at a depth of the grid.
    #[tactic(auto, using(crate::proofs::Evaluation::found_is))]
    fn runoff(&self, column: Column, depth: Depth) -> u64
        requires { depth.0 ≤ highest_depth }
        ensures { result ≡ runoff_of column depth.0 }
    {
        match runoff::entry(self.sheet, column, depth) {
            Ok(runoff) => runoff.0,
            Err(_) => unreachable!(),
        }
    }

    // V at a depth of the grid.
    #[tactic(auto, using(crate::proofs::Evaluation::first_fits, crate::proofs::Evaluation::sum_starts, crate::proofs::Evaluation::whole_fits))]
    fn volume_at(&self, depth: Depth) -> Volume
        requires { depth.0 ≤ highest_depth }
        ensures { result.0 ≡ volume_from self.now.areas.of depth.0 }
    {
        let mut sum = 300 * depth.0 * self.areas.of[0].0;
        for (soil, &column) in COLUMNS.iter().enumerate() {
            sum += self.areas.of[soil + 1].0 * self.runoff(column, depth);
        }
        Volume(121 * sum)
    }

    // The largest grid depth whose V is not above the volume, with 8 evaluations of V: it is among the `width` depths from
    // `low` on, and half of them are left at each turn. The library's search wants a slice, and there is none of V.
    fn depth_within(&self, volume: Volume) -> Depth
        ensures { result.0 ≡ depth_within (volume_from self.now.areas.of) volume.0 }
    {
        let mut low = Depth::LOWEST;
        let mut width = Depth::HIGHEST + 1;
        while 1 < width {
            let half = width / 2;
            let found = self.volume_at(Depth(low + half));
            if found.0 <= volume.0 {
                low += half;
            }
            width -= half;
        }
        Depth(low)
    }

    // Refusal 15 does not arise: V(200) is within the largest volume. The six areas' own V(200) is
    // worked out only where the limits leave a doubt.
    #[tactic(auto, using(crate::proofs::Answered::never_past, crate::proofs::Answered::past_told))]
    fn within_largest(&self) -> bool
        ensures { result ≡ not_past (volume_from self.now.areas.of highest_depth) }
    {
        FULLEST <= units::LARGEST || self.volume_at(Depth(Depth::HIGHEST)).0 <= units::LARGEST
    }
}

// The six areas are those of a site: their total is within the limit.
#[tactic(auto, using(crate::proofs::Limit::total_starts, crate::proofs::Limit::total_passed, crate::proofs::Limit::total_next, crate::proofs::Limit::total_fits))]
fn within_limit(areas: Areas) -> bool
    ensures { result ≡ within_limit areas.of }
{
    let mut total: u64 = 0;
    for area in &areas.of {
        if units::MOST_AREA - total < area.0 {
            return false;
        }
        total += area.0;
    }
    true
}

// V at a depth, from six areas. The calls for a volume and for a depth are twins but for what is asked, and 9 is tried of that between 3
// and 15: one function of both would take a closure for it, and be no plainer.
pub fn volume_of(areas: Areas, depth: Depth) -> Result<Volume, Refusal>
    ensures { result ≡ volume_on areas.of depth }
{
    if !within_limit(areas) {
        return Err(Refusal::TotalAreaPassed);
    }
    if Depth::HIGHEST < depth.0 {
        return Err(Refusal::AmountOutOfRange);
    }
    let sheet = runoff::sheet();
    let ground = Ground {
        areas,
        sheet: &sheet,
    };
    if !ground.within_largest() {
        return Err(Refusal::PastLargest);
    }
    Ok(ground.volume_at(depth))
}

// The depth of a volume, from six areas.
pub fn depth_of(areas: Areas, volume: Volume) -> Result<Depth, Refusal>
    ensures { result ≡ depth_on areas.of volume }
{
    if !within_limit(areas) {
        return Err(Refusal::TotalAreaPassed);
    }
    if units::LARGEST < volume.0 {
        return Err(Refusal::AmountOutOfRange);
    }
    let sheet = runoff::sheet();
    let ground = Ground {
        areas,
        sheet: &sheet,
    };
    if !ground.within_largest() {
        return Err(Refusal::PastLargest);
    }
    Ok(ground.depth_within(volume))
}

// The six areas of a site beside its total area, or beside the refusal of its record; then they are zero. The edit
// `refused_record_has_areas`, areas beside a refusal, has no form in a `Result` of both.
#[derive(Clone, Copy)]
pub struct Gathered {
    pub answer: Result<Area, Refusal>,
    pub areas: Areas,
}

pub fn gather(site: Site) -> Gathered
    ensures { result ≡ gathered_answer site }
{
    match site.judge() {
        Ok(total) => Gathered {
            answer: Ok(total),
            areas: six_areas(site),
        },
        Err(why) => Gathered {
            answer: Err(why),
            areas: Areas { of: [Area(0); 6] },
        },
    }
}

// V of a site at a depth.
pub fn volume(site: Site, depth: Depth) -> Result<Volume, Refusal>
    ensures { result ≡ volume_answer site depth }
{
    let found = gather(site);
    found.answer?;
    volume_of(found.areas, depth)
}

// The depth of a volume on a site.
pub fn depth(site: Site, volume: Volume) -> Result<Depth, Refusal>
    ensures { result ≡ depth_answer site volume }
{
    let gathered = gather(site);
    gathered.answer?;
    depth_of(gathered.areas, volume)
}
