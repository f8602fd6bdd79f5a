// Rules, "Site and load" and "Curve sheets": the export rates of Tables 3-1 and 3-2, the load of a site, and the removed load.
#![tactic(auto)]

ghost use Rattle.std.specs.Prelude.{◌≡◌, ◌*◌, ◌≤◌, get_or};
ghost use Rattle.units.specs.Limits.{most_area};
ghost use Rattle.site.specs.Parts.{area_of};
ghost use Rattle.loads.specs.Rates.{table_most, export_rates, soil_place, pervious_place, rate_place};
ghost use Rattle.loads.specs.Loads.{part_load, within_largest, load_under, load_answer, removed_answer};

use refusal::Refusal;
use site::{Cover, LandUse, Site, Soil, SubArea};
use units::{Load, Nutrient, Percent};

// Table 3-1, hundredths of a pound of phosphorus per acre and year: sixteen by their place, as the definition phosphorus has them.
const PHOSPHORUS: [u16; 16] = [
    178, 178, 232, 196, 152, 134, 152, 152, 152, 13, 45, 3, 12, 21, 29, 37,
];

// Table 3-2, the same of nitrogen.
const NITROGEN: [u16; 16] = [
    1500, 1500, 1410, 1410, 1410, 1050, 1130, 1130, 1130, 50, 260, 30, 120, 240, 310, 360,
];

// The permit's table of a nutrient.
pub fn rates(nutrient: Nutrient) -> [u16; 16]
    ensures { result ≡ export_rates nutrient }
{
    match nutrient {
        Nutrient::P => PHOSPHORUS,
        Nutrient::N => NITROGEN,
    }
}

// The place of developed pervious land, by its soil.
fn soil_place(soil: Soil) -> usize
    ensures { result ≡ soil_place soil }
{
    11 + units::place(site::load_column(soil))
}

// The place of pervious land, where other is the one by its soil.
fn pervious_place(land: LandUse, other: usize) -> usize
    ensures { result ≡ pervious_place land other }
{
    match land {
        LandUse::For => 9,
        LandUse::Ag => 10,
        _ => other,
    }
}

// The place of a sub-area in a table of rates: impervious land has its own, in the order of the land uses.
fn rate_place(part: SubArea) -> usize
    ensures { result ≡ rate_place part }
{
    match part.cover {
        Cover::Imp => part.land as usize,
        Cover::Per => pervious_place(part.land, soil_place(part.soil)),
    }
}

// The rate of a sub-area in a table of rates that is lent.
pub fn rate_of(part: SubArea, rates: &[u16; 16]) -> u64
    ensures { (result ≡ get_or rates.now (rate_place part) 0) × (result ≤ table_most) }
{
    u64::from(rates[rate_place(part)])
}

// The area of a sub-area and its rate make a load.
fn part_load(part: SubArea, rates: &[u16; 16]) -> Load
    requires { area_of part ≤ most_area }
    ensures { (result.0 ≡ part_load rates.now part) × (result.0 ≤ table_most * area_of part) }
{
    Load(part.area.0 * rate_of(part, rates))
}

// A load past 10^13 is refused 15. Depth::new of units and within_most of probe are alike but for kind, limit and refusal: a trait for the
// three would be longer than they are.
fn within_largest(load: Load) -> Result<Load, Refusal>
    ensures { result ≡ within_largest load.0 }
{
    if load.0 <= units::LARGEST {
        return Ok(load);
    }
    Err(Refusal::PastLargest)
}

// The load of a site under a table of rates that is lent: the record is judged, then 15 is tried. With rates of 16 bits the sum is below
// 2^36.
#[tactic(auto, using(site::proofs::Judging::count_known))]
pub fn load_under(site: Site, rates: &[u16; 16]) -> Result<Load, Refusal>
    ensures { result ≡ load_under rates.now site }
{
    site.judge()?;
    let mut sum = 0;
    for &part in &site.parts[..site.count] {
        sum += part_load(part, rates).0;
    }
    within_largest(Load(sum))
}

// The load of a site under the permit's table.
pub fn load(site: Site, nutrient: Nutrient) -> Result<Load, Refusal>
    ensures { result ≡ load_answer nutrient site }
{
    let table = rates(nutrient);
    load_under(site, &table)
}

// The part of a load that a percent removes, rounded down. A percent above 100,000 is refused 9, a load past 10^13 15.
#[tactic(auto, using(crate::proofs::Answers::percent_out, crate::proofs::Answers::removed_past, crate::proofs::Answers::removed_granted, crate::proofs::Answers::removed_fits))]
pub fn removed(load: Load, percent: Percent) -> Result<Load, Refusal>
    ensures { result ≡ removed_answer load.0 percent.0 }
{
    if units::MOST_PERCENT < percent.0 {
        return Err(Refusal::AmountOutOfRange);
    }
    if units::LARGEST < load.0 {
        return Err(Refusal::PastLargest);
    }
    Ok(Load(load.0 * percent.0 / units::MOST_PERCENT))
}
