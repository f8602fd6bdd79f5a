// Rules, "Practices covered": the published sheets of the nine practices.
#![tactic(auto)]

mod tables;

ghost use Rattle.std.specs.Prelude.{◌≡◌, map};
ghost use Rattle.published.specs.Tables.{sheets};
ghost use Rattle.published.specs.Published.{lent, with_depths, sheet_of, lists_of, percent_published, reach_published};

use curve::{Basis, Mode, Reached, SheetError};
use refusal::Refusal;
use sheet::Sheet;
use units::{Depth, Nutrient, Percent, Rate};

// The practices are numbered 0 to 8.
pub const LAST_PRACTICE: u64 = 8;

// The sheets for a nutrient by practice number.
fn table(nutrient: Nutrient) -> &'static [Sheet<'static>; 9]
    ensures { map lent result.now ≡ map with_depths (sheets nutrient) }
{
    match nutrient {
        Nutrient::P => &tables::FOR_P,
        Nutrient::N => &tables::FOR_N,
    }
}

// The sheet of a practice for a nutrient. A practice is a number and no enum: any is taken, and one above 8 refused 4 (GrantedElse).
pub fn sheet(practice: u64, nutrient: Nutrient) -> Result<Sheet<'static>, Refusal>
    ensures { lists_of result ≡ sheet_of practice nutrient }
{
    if practice <= LAST_PRACTICE {
        let sheet = table(nutrient)[practice as usize];
        if !sheet.rates.is_empty() {
            return Ok(sheet);
        }
    }
    Err(Refusal::NoPublishedSheet)
}

// The percent of a published practice at a site rate and a depth, with its basis.
pub fn percent(
    practice: u64,
    nutrient: Nutrient,
    mode: Mode,
    rate: Rate,
    depth: Depth,
) -> Result<(Percent, Basis), SheetError>
    ensures { result ≡ percent_published practice nutrient mode rate.0 depth.0 }
{
    curve::percent(sheet(practice, nutrient)?, mode, rate, depth)
}

// The least grid depth of a published practice whose percent is at least the target, with that percent and its basis.
pub fn reach(
    practice: u64,
    nutrient: Nutrient,
    mode: Mode,
    rate: Rate,
    target: Percent,
) -> Result<Reached, SheetError>
    ensures { result ≡ reach_published practice nutrient mode rate.0 target.0 }
{
    curve::reach(sheet(practice, nutrient)?, mode, rate, target)
}
