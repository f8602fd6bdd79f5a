// Rules, "Curve sheets": crediting and sizing, on a lent sheet and on a published practice.
#![tactic(auto)]

ghost use Rattle.std.specs.Prelude.{◌≡◌, ◌≤◌, Err, MatchResult};
ghost use Rattle.site.specs.Judging.{judged};
ghost use Rattle.units.specs.Limits.{largest, most_percent, highest_depth};
ghost use Rattle.volume.specs.Areas.{area_at, volume_from};
ghost use Rattle.volume.specs.Inner.{Six};
ghost use Rattle.volume.specs.Answers.{depth_on};
ghost use Rattle.credit.specs.Credit.{figures_of, credit_by};
ghost use Rattle.loads.specs.Rates.{export_rates};
ghost use Rattle.credit.specs.Answers.{lent, published, on_sheet, answer_of};
ghost use Rattle.credit.specs.Inner.{Surveyed, Within, depth_in, sized_by};

use curve::{Basis, Mode, Reached, SheetError};
use refusal::Refusal;
use sheet::Sheet;
use site::Site;
use units::{Area, Depth, Load, Nutrient, Percent, Rate, Volume};
use volume::Areas;

// What is asked of a site: the credit of a volume, or the size of a target.
#[derive(Clone, Copy)]
pub enum Wanted {
    Credit(Volume),
    Size(Percent),
}

// What a granted answer gives: the site's load, the grid depth, its percent and the basis of that, the volume and the removed
// load.
#[derive(Clone, Copy)]
pub struct Figures {
    pub load: Load,
    pub depth: Depth,
    pub percent: Percent,
    pub basis: Basis,
    pub volume: Volume,
    pub removed: Load,
}

// What a walk over a site that is judged fine finds: its six areas and its load, within their limits.
#[derive(Clone, Copy)]
struct Survey {
    areas: Areas,
    load: Load,
    ghost six: { Six areas.of },
    ghost fits: { load.0 ≤ largest },
}

impl Survey {
    // One walk over a record tries its sub-areas, gathers their six areas and sums their load under a table of rates; then its numbers are
    // tried.
    fn walk_under(site: Site, rates: &[u16; 16]) -> Result<Survey, Refusal>
        ensures { MatchResult result (λ survey. Surveyed rates.now site survey.areas.of survey.load.0) (λ why. Err why ≡ judged site) }
    {
        if site::MOST_PARTS < site.count {
            return Err(Refusal::SiteFull);
        }
        let mut total = Area(0);
        let mut of = [Area(0); 6];
        let mut load: u64 = 0;
        for &part in &site.parts[..site.count] {
            total = site::try_part(total, part)?;
            of[volume::area_place(part)].0 += part.area.0;
            load += part.area.0 * loads::rate_of(part, rates);
        }
        if !site::numbered(&site.numbers[..site.count], site.counter) {
            return Err(Refusal::NumberNotHeld);
        }
        Ok(Survey {
            areas: Areas { of },
            load: Load(load),
        })
    }

    // The walk under the permit's table.
    fn walk(site: Site, nutrient: Nutrient) -> Result<Survey, Refusal>
        ensures { MatchResult result (λ survey. Surveyed (export_rates nutrient) site survey.areas.of survey.load.0) (λ why. Err why ≡ judged site) }
    {
        let table = loads::rates(nutrient);
        Survey::walk_under(site, &table)
    }

    // The figures, with the removed load worked out from the percent.
    fn figures(self, depth: Depth, percent: Percent, basis: Basis, volume: Volume) -> Figures
        requires { percent.0 ≤ most_percent }
        ensures { result ≡ figures_of self.load.0 depth.0 percent.0 basis volume.0 }
    {
        match loads::removed(self.load, percent) {
            Ok(removed) => Figures {
                load: self.load,
                depth,
                percent,
                basis,
                volume,
                removed,
            },
            Err(_) => unreachable!(),
        }
    }

    // Tries 8, then 9 and 15, which the depth of the volume has told, and gives the figures.
    fn credited(
        self,
        reached: Result<Depth, Refusal>,
        percent: Percent,
        basis: Basis,
        volume: Volume,
    ) -> Result<Figures, SheetError>
        requires whole { percent.0 ≤ most_percent }
        requires reached_value { reached ≡ depth_on self.areas.of volume }
        ensures { result ≡ credit_by self.load.0 (area_at self.areas.of 0) (volume_from self.areas.of) (λ d. percent.0) (λ d. basis) volume.0 }
    {
        if self.areas.of[0].0 < 1 {
            return Err(SheetError::Refused(Refusal::NoImperviousArea));
        }
        let depth = reached?;
        Ok(self.figures(depth, percent, basis, volume))
    }

    // Tries 8, 9, 15 and, where no depth reaches the target, 10, and gives the figures.
    fn sized(
        self,
        target: Percent,
        found: Option<(Depth, Percent, Basis)>,
    ) -> Result<Figures, SheetError>
        requires { Within found }
        ensures { result ≡ sized_by self.load.0 (area_at self.areas.of 0) (volume_from self.areas.of) target.0 found }
    {
        if self.areas.of[0].0 < 1 {
            return Err(SheetError::Refused(Refusal::NoImperviousArea));
        }
        if units::MOST_PERCENT < target.0 {
            return Err(SheetError::Refused(Refusal::AmountOutOfRange));
        }
        match found {
            Some((depth, percent, basis)) => {
                let volume = volume::volume_of(self.areas, depth)?;
                Ok(self.figures(depth, percent, basis, volume))
            }
            None => {
                // 15 comes before 10.
                volume::volume_of(self.areas, Depth(Depth::HIGHEST))?;
                Err(SheetError::Refused(Refusal::TargetUnreachable))
            }
        }
    }

    // Crediting on a sheet: 5, 6 and 7 come first, by the percent at the depth of the volume.
    fn credit_by(
        self,
        sheet: Sheet,
        mode: Mode,
        rate: Rate,
        volume: Volume,
    ) -> Result<Figures, SheetError>
        ensures { result ≡ on_sheet (Wanted.Credit volume) self.load.0 (area_at self.areas.of 0) (volume_from self.areas.of) sheet.entry.depths.now sheet.entry.rates.now sheet.entry.percents.now mode rate.0 }
    {
        let reached = volume::depth_of(self.areas, volume);
        let (percent, basis) = curve::percent(sheet, mode, rate, depth_in(reached))?;
        self.credited(reached, percent, basis, volume)
    }

    // Sizing on a sheet: 5, 6 and 7 come first, by the least depth that reaches the target.
    fn size_by(
        self,
        sheet: Sheet,
        mode: Mode,
        rate: Rate,
        target: Percent,
    ) -> Result<Figures, SheetError>
        ensures { result ≡ on_sheet (Wanted.Size target) self.load.0 (area_at self.areas.of 0) (volume_from self.areas.of) sheet.entry.depths.now sheet.entry.rates.now sheet.entry.percents.now mode rate.0 }
    {
        match curve::reach(sheet, mode, rate, target)? {
            Reached::Found(depth, percent, basis) => {
                self.sized(target, Some((depth, percent, basis)))
            }
            Reached::TooHigh | Reached::Short => self.sized(target, None),
        }
    }

    // The work for both kinds of sheet.
    fn on_sheet(
        self,
        sheet: Sheet,
        mode: Mode,
        rate: Rate,
        wanted: Wanted,
    ) -> Result<Figures, SheetError>
        ensures { result ≡ on_sheet wanted self.load.0 (area_at self.areas.of 0) (volume_from self.areas.of) sheet.entry.depths.now sheet.entry.rates.now sheet.entry.percents.now mode rate.0 }
    {
        match wanted {
            Wanted::Credit(volume) => self.credit_by(sheet, mode, rate, volume),
            Wanted::Size(target) => self.size_by(sheet, mode, rate, target),
        }
    }
}

// The depth of an answer; 0 where it is refused.
fn depth_in(reached: Result<Depth, Refusal>) -> Depth
    ensures { result ≡ depth_in reached }
{
    match reached {
        Ok(depth) => depth,
        Err(_) => Depth(Depth::LOWEST),
    }
}

// Crediting or sizing on a lent sheet.
pub fn answer_on(
    site: Site,
    nutrient: Nutrient,
    sheet: Sheet,
    mode: Mode,
    rate: Rate,
    wanted: Wanted,
) -> Result<Figures, SheetError>
    ensures { result ≡ answer_of (lent sheet.entry.depths.now sheet.entry.rates.now sheet.entry.percents.now) wanted nutrient site mode rate.0 }
{
    Survey::walk(site, nutrient)?.on_sheet(sheet, mode, rate, wanted)
}

// Crediting or sizing on the published sheet of a practice.
pub fn answer(
    site: Site,
    nutrient: Nutrient,
    practice: u64,
    mode: Mode,
    rate: Rate,
    wanted: Wanted,
) -> Result<Figures, SheetError>
    ensures { result ≡ answer_of (published practice) wanted nutrient site mode rate.0 }
{
    let survey = Survey::walk(site, nutrient)?;
    survey.on_sheet(published::sheet(practice, nutrient)?, mode, rate, wanted)
}
