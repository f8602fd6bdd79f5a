// Rules, "Units, all whole numbers": acres, inches, cubic feet and pounds each keep their own kind.
#![tactic(auto)]

ghost use Rattle.std.specs.Prelude.{◌≡◌, ℕ, List, Some, slice_get};
ghost use Rattle.std.proofs.Common.{rules};
ghost use Rattle.units.specs.Depths.{on_grid};
ghost use Rattle.units.specs.Columns.{column_place};
ghost use Rattle.units.specs.Cases.{coded, nutrients, nutrient_place};

use refusal::Refusal;

// Hundredths of an acre.
#[derive(Clone, Copy)]
pub struct Area(pub u64);

// Hundredths of an inch.
#[derive(Clone, Copy)]
pub struct Depth(pub u64);

// Hundred-thousandths of a cubic foot.
#[derive(Clone, Copy)]
pub struct Volume(pub u64);

// Ten-thousandths of a pound per year.
#[derive(Clone, Copy)]
pub struct Load(pub u64);

// Thousandths of a percent.
#[derive(Clone, Copy)]
pub struct Percent(pub u64);

// Hundredths of an inch per hour.
#[derive(Clone, Copy)]
pub struct Rate(pub u64);

// The largest volume, and the largest load: 10^13.
pub const LARGEST: u64 = 10_000_000_000_000;

// The largest sub-area, and the largest site.
pub const MOST_AREA: u64 = 1_000_000;

pub const MOST_RATE: u64 = 10_000;

pub const MOST_PERCENT: u64 = 100_000;

impl Depth {
    pub const LOWEST: u64 = 0;

    pub const HIGHEST: u64 = 200;

    // The grid depth of so many hundredths of an inch, refused 9 above the highest.
    pub fn new(hundredths: u64) -> Result<Depth, Refusal>
        ensures { result ≡ on_grid hundredths }
    {
        if hundredths <= Depth::HIGHEST {
            return Ok(Depth(hundredths));
        }
        Err(Refusal::AmountOutOfRange)
    }
}

// Phosphorus or nitrogen.
#[derive(Clone, Copy, Debug, PartialEq, Eq)]
pub enum Nutrient {
    P,
    N,
}

// An enum whose cases stand in an order, so that a number tells one: its code, the place counted from 0.
pub trait Coded: Copy + 'static {
    ghost cases: { List Self };

    ghost place: { Self → ℕ };

    fn cases() -> &'static [Self]
        ensures { result.now ≡ cases };

    fn place(self) -> usize
        ensures { result ≡ place self };

    // The case of a code, refused 1 where there is none.
    fn coded(code: u64) -> Result<Self, Refusal>
        ensures { result ≡ coded cases code }
    {
        Self::cases()
            .get(code as usize)
            .copied()
            .ok_or(Refusal::MalformedText)
    }

    ghost in_order: { (x : Self) → slice_get cases (place x) ≡ Some x };
}

impl Coded for Nutrient {
    ghost cases = { nutrients };

    ghost place = { nutrient_place };

    ghost in_order = { Prim.search rules };

    fn cases() -> &'static [Nutrient] {
        &[Nutrient::P, Nutrient::N]
    }

    fn place(self) -> usize {
        self as usize
    }
}

// The soil columns that Tables 3-1, 3-2 and 3-4 share.
#[derive(Clone, Copy, Debug, PartialEq, Eq)]
pub enum Column {
    A,
    B,
    C,
    CD,
    D,
}

// The place of a column in a table's row of soils.
pub fn place(c: Column) -> usize
    ensures { result ≡ column_place c }
{
    c as usize
}
