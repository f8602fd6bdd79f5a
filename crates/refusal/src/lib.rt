// Rules, "The numbers given back": one case for each number, named for what it means and declared with it.
#![tactic(auto)]

ghost use Rattle.std.specs.Prelude.{◌≡◌, Some};
ghost use Rattle.refusal.specs.Refusal.{number_of, text_of};

use std::error::Error;
use std::fmt;

#[derive(Clone, Copy, Debug, PartialEq, Eq)]
pub enum Refusal {
    // The job text is too long, or a line is missing, unended, out of order or malformed.
    MalformedText = 1,
    // A sub-area outside 1 to 1,000,000, or a soil that does not suit its cover.
    UnfitSubArea = 2,
    // The total area would pass 1,000,000.
    TotalAreaPassed = 3,
    // A practice number above 8, or no published column for it.
    NoPublishedSheet = 4,
    // A lent sheet breaks a sheet rule.
    UnfitSheet = 5,
    // A rate above 10,000, or not 0 on a sheet without rates.
    RateOutOfRange = 6,
    // A rate below the sheet's slowest.
    RateBelowSheet = 7,
    // Credit or size with no impervious area.
    NoImperviousArea = 8,
    // An amount out of range for the task, or a depth above 200.
    AmountOutOfRange = 9,
    // A target above the percent at depth 200.
    TargetUnreachable = 10,
    // A reading that is not a number, infinite or below zero.
    ReadingNotARate = 11,
    // A reading that rounds to over 10,000.
    ReadingTooFast = 12,
    // An answer buffer shorter than the answer text.
    BufferTooShort = 13,
    // A site that already holds 32 sub-areas, or a record whose count is above 32.
    SiteFull = 14,
    // A load, or V(200), past 10^13.
    PastLargest = 15,
    // A number that the site does not hold, or a record whose counter is 0 or whose numbers do not rise strictly from at
    // least 1 and stay below it.
    NumberNotHeld = 16,
    // An add that finds the counter at 1,000,000 or more.
    NumbersSpent = 17,
}

// The number that the rules give a refusal.
pub fn number(r: Refusal) -> u64
    ensures { result ≡ number_of r }
{
    r as u64
}

impl From<Refusal> for u64 {
    ghost from_gives = { λ r n. n ≡ number_of r };

    fn from(r: Refusal) -> u64 {
        number(r)
    }
}

// The number once more: the words stand in docs/words.tsv alone.
impl fmt::Display for Refusal {
    ghost output = { λ r. Some (text_of r) };

    fn fmt<W: fmt::Write>(&self, f: &mut fmt::Formatter<W>) -> fmt::Result {
        write!(f, "refused {}", number(*self))
    }
}

impl Error for Refusal {}
