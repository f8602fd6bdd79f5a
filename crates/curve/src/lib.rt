// Rules, "Curve sheets" and "How a percent was found": the percent of a sheet at a site rate and a depth, and its basis.
#![tactic(auto)]

ghost use Rattle.std.specs.Prelude.{◌≤◌, ◌<◌, ◌≡◌, true, length, get_or, MatchResult};
ghost use Rattle.std.specs.Result.{is_ok};
ghost use Rattle.std.specs.Coded.{Coded-set};
ghost use Rattle.laws.specs.Line.{line};
ghost use Rattle.units.specs.Limits.{most_rate};
ghost use Rattle.sheet.specs.Sheet.{previous, verdict_of};
ghost use Rattle.curve.specs.declared.SheetError.TheVariants.{Unfit, Refused};
ghost use Rattle.std.proofs.Common.{rules};
ghost use Rattle.curve.specs.Modes.{modes, mode_place};
ghost use Rattle.curve.specs.Curve.{held, segment, width, height, fastest, curves_of, exact_in, exact_at, percent_at};
ghost use Rattle.curve.specs.Basis.{mixes, basis_at, basis_number};
ghost use Rattle.curve.specs.Inner.{OnLine, Rated, Between, Reaching};
ghost use Rattle.curve.specs.Answers.{fastest_taken, admission_of, percent_answer, reach_of};

use refusal::Refusal;
use sheet::{Fault, Sheet};
use units::{Coded, Depth, Percent, Rate};

// How the site rate picks among the sheet's rates.
#[derive(Clone, Copy, Debug, PartialEq, Eq)]
pub enum Mode {
    // The curve of the fastest sheet rate not above the site rate.
    Step,
    // A straight line between the curves of the two neighbouring rates.
    Mix,
}

impl Coded for Mode {
    ghost cases = { modes };

    ghost place = { mode_place };

    ghost in_order = { Prim.search rules };

    fn cases() -> &'static [Mode] {
        &[Mode::Step, Mode::Mix]
    }

    fn place(self) -> usize {
        self as usize
    }
}

// The curves that a site rate is credited by.
#[derive(Clone, Copy)]
pub enum Curves {
    // The curve of the rate at this place.
    One(usize),
    // The line between the curves of the rates slow and fast, at this place and the next, read at the site rate. The rates stand beside
    // the place: mixes and exact_in read them without the list.
    Two {
        low: usize,
        slow: Rate,
        fast: Rate,
        rate: Rate,
    },
}

// How a percent was found.
#[derive(Clone, Copy)]
pub enum Basis {
    // No percent was asked for, or it was refused. It stays a case, and is no Option, since the answers' definitions give it the
    // number 0, and the theorem NeverNone says that no granted percent has it.
    None,
    // The depth is one of the sheet's, and nothing was mixed.
    Printed,
    // Another depth from the first to the last, or one of the sheet's where two curves are mixed.
    Between,
    // Below the first depth.
    Start,
    // Beyond the last depth.
    Held,
}

// An exact percent: over / under thousandths.
#[derive(Clone, Copy)]
pub struct Fraction {
    pub over: u64,
    pub under: u64,
}

// Why a sheet and a site rate give no percent and no depth.
#[derive(Clone, Copy)]
pub enum SheetError {
    // 5: the sheet breaks a rule.
    Unfit(Fault),
    Refused(Refusal),
}

impl From<Fault> for SheetError {
    ghost from_gives = { λ fault error. error ≡ Unfit fault };

    fn from(fault: Fault) -> SheetError {
        SheetError::Unfit(fault)
    }
}

impl From<Refusal> for SheetError {
    ghost from_gives = { λ why error. error ≡ Refused why };

    fn from(why: Refusal) -> SheetError {
        SheetError::Refused(why)
    }
}

// What is found for a target on an accepted sheet: the least grid depth, its percent and the basis of that, or why there is none.
#[derive(Clone, Copy)]
pub enum Reached {
    Found(Depth, Percent, Basis),
    // 9: the target is above 100 percent.
    TooHigh,
    // 10: no grid depth reaches the target.
    Short,
}

// So many trials halve the 201 depths of the grid to one.
const TRIALS: usize = 8;

// The straight line from (x0, y0) to (x1, y1) at x, times its width.
fn line(x0: u64, y0: u64, x1: u64, y1: u64, x: u64) -> u64
    requires { OnLine x0 y0 x1 y1 x }
    ensures { result ≡ line x0 y0 x1 y1 x }
{
    (x1 - x) * y0 + (x - x0) * y1
}

// The depth at which the curve is read: the last depth where it lies beyond.
fn held(depths: &[u64], depth: Depth) -> Depth
    requires { 1 ≤ length depths.now }
    ensures { result.0 ≡ held depths.now depth.0 }
{
    Depth(depth.0.min(depths[depths.len() - 1]))
}

// The place of the first of some rising numbers that is not below x: the segment of a depth, and the rates reached.
fn segment(numbers: &[u64], x: u64) -> usize
    ensures { result ≡ segment numbers.now x }
{
    numbers.iter().take_while(|n| **n < x).count()
}

// The place of the fastest sheet rate not above the site rate.
fn fastest(rates: &[u64], rate: Rate) -> usize
    requires { Rated rates.now rate.0 }
    ensures { result ≡ fastest rates.now rate.0 }
{
    segment(rates, rate.0 + 1) - 1
}

// The curves of a site rate in a mode.
#[tactic(auto, using(crate::proofs::Choices::next_fits), unfolding(crate::specs::Curve::curves_of))]
fn choose(rates: &[u64], mode: Mode, rate: Rate) -> Curves
    requires { Rated rates.now rate.0 }
    ensures { result ≡ curves_of rates.now mode rate.0 }
{
    let low = fastest(rates, rate);
    match (mode, rates.get(low + 1)) {
        (Mode::Mix, Some(&next)) => Curves::Two {
            low,
            slow: Rate(rates[low]),
            fast: Rate(next),
            rate,
        },
        _ => Curves::One(low),
    }
}

// Two curves are mixed: the site rate is above the slower one.
fn mixes(curves: Curves) -> bool
    ensures { result ≡ mixes curves }
{
    matches!(curves, Curves::Two { slow, rate, .. } if slow.0 < rate.0)
}

// A depth x of an accepted sheet, in its segment k.
#[derive(Clone, Copy)]
struct Spot<'a> {
    sheet: Sheet<'a>,
    k: usize,
    x: Depth,
    ghost accepted: { is_ok (verdict_of sheet.depths.now sheet.rates.now sheet.percents.now) ≡ true },
    ghost within: { k < length sheet.depths.now },
    ghost from: { previous sheet.depths.now (length sheet.depths.now) k ≤ x.0 },
    ghost to: { x.0 ≤ get_or sheet.depths.now k 0 },
}

impl Spot<'_> {
    // How wide the segment is.
    fn width(self) -> u64
        ensures { result ≡ width self.entry.sheet.depths.now self.entry.k }
    {
        let depths = self.sheet.depths;
        depths[self.k] - sheet::previous(depths, depths.len(), self.k)
    }

    // The curve of the rate at place j, times the segment's width.
    #[tactic(auto, unfolding(crate::specs::Curve::height))]
    fn height(self, j: usize) -> u64
        requires { j < length self.sheet.rates.now }
        ensures { result ≡ height self.entry.sheet.depths.now self.entry.sheet.percents.now j self.entry.k self.entry.x.0 }
    {
        let Sheet {
            depths,
            rates: _,
            percents,
        } = self.sheet;
        let n = depths.len();
        let i = j * n + self.k;
        let x0 = sheet::previous(depths, n, self.k);
        let y0 = sheet::previous(percents, n, i);
        line(x0, y0, depths[self.k], percents[i], self.x.0)
    }

    // The exact percent by the curve of one rate.
    #[tactic(auto, unfolding(crate::specs::Curve::exact_in))]
    fn by_one(self, j: usize) -> Fraction
        requires { j < length self.sheet.rates.now }
        ensures { result ≡ exact_in self.entry.sheet.depths.now self.entry.sheet.percents.now (Curves.One j) self.entry.k self.entry.x.0 }
    {
        Fraction {
            over: self.height(j),
            under: self.width(),
        }
    }

    // The exact percent by the line between the curves of two rates.
    #[tactic(auto, unfolding(crate::specs::Curve::exact_in))]
    #[inline(always)]
    fn by_two(self, j: usize, slow: Rate, fast: Rate, rate: Rate) -> Fraction
        requires { Between self.sheet.rates.now j slow.0 fast.0 rate.0 }
        ensures { result ≡ exact_in self.entry.sheet.depths.now self.entry.sheet.percents.now (Curves.Two j slow fast rate) self.entry.k self.entry.x.0 }
    {
        let below = self.height(j);
        let above = self.height(j + 1);
        Fraction {
            over: line(slow.0, below, fast.0, above, rate.0),
            under: self.width() * (fast.0 - slow.0),
        }
    }
}

// The fastest site rate that a sheet takes: 0 where it is without rates.
#[tactic(auto, unfolding(crate::specs::Answers::fastest_taken))]
fn fastest_taken(rates: &[u64]) -> Rate
    ensures { result.0 ≡ fastest_taken rates.now }
{
    if sheet::without_rates(rates) {
        return Rate(0);
    }
    Rate(units::MOST_RATE)
}

// An accepted sheet at a site rate, with the curves of the rate: all that is known before a depth is.
#[derive(Clone, Copy)]
struct Admitted<'a> {
    sheet: Sheet<'a>,
    mode: Mode,
    rate: Rate,
    curves: Curves,
    ghost accepted: { is_ok (verdict_of sheet.depths.now sheet.rates.now sheet.percents.now) ≡ true },
    ghost slowest: { get_or sheet.rates.now 0 0 ≤ rate.0 },
    ghost taken: { rate.0 ≤ most_rate },
    ghost chosen: { curves ≡ curves_of sheet.rates.now mode rate.0 } by { Coded-set curves-code curves (curves_of sheet.rates.now mode rate.0) },
}

// The admission, `exact_at`, `percent_at` and `Spot::by_two` are always inlined: else an admitted sheet, which is passed by value, is copied
// at each of the eight trials of `least`, and how long its lists are at most is no longer known there.
impl<'a> Admitted<'a> {
    // Tries 5, 6 and 7.
    #[inline(always)]
    fn admit(sheet: Sheet<'a>, mode: Mode, rate: Rate) -> Result<Admitted<'a>, SheetError>
        ensures { MatchResult result (λ admitted. (admitted.sheet ≡ sheet.entry) × (Ok admitted.curves ≡ admission_of sheet.entry.depths.now sheet.entry.rates.now sheet.entry.percents.now mode rate.0)) (λ error. Err error ≡ admission_of sheet.entry.depths.now sheet.entry.rates.now sheet.entry.percents.now mode rate.0) }
    {
        sheet.judge()?;
        if fastest_taken(sheet.rates).0 < rate.0 {
            return Err(SheetError::Refused(Refusal::RateOutOfRange));
        }
        if rate.0 < sheet.rates[0] {
            return Err(SheetError::Refused(Refusal::RateBelowSheet));
        }
        Ok(Admitted {
            sheet,
            mode,
            rate,
            curves: choose(sheet.rates, mode, rate),
        })
    }

    // The segment in which a depth is read.
    fn spot(self, depth: Depth) -> Spot<'a>
        ensures sheet { result.sheet ≡ self.entry.sheet }
        ensures depth { result.x.0 ≡ held self.entry.sheet.depths.now depth.0 }
        ensures segment { result.k ≡ segment self.entry.sheet.depths.now result.x.0 }
    {
        let x = held(self.sheet.depths, depth);
        Spot {
            sheet: self.sheet,
            k: segment(self.sheet.depths, x.0),
            x,
        }
    }

    // The exact percent at a depth.
    #[inline(always)]
    fn exact_at(self, depth: Depth) -> Fraction
        ensures { result ≡ exact_at self.entry.sheet.depths.now self.entry.sheet.percents.now self.entry.curves depth.0 }
    {
        let spot = self.spot(depth);
        match self.curves {
            Curves::One(j) => spot.by_one(j),
            Curves::Two {
                low,
                slow,
                fast,
                rate,
            } => spot.by_two(low, slow, fast, rate),
        }
    }

    // The percent at a depth: the exact one rounded down.
    #[inline(always)]
    fn percent_at(self, depth: Depth) -> Percent
        ensures { result.0 ≡ percent_at self.entry.sheet.depths.now self.entry.sheet.percents.now self.entry.curves depth.0 }
    {
        let f = self.exact_at(depth);
        Percent(f.over / f.under)
    }

    // How the percent at a depth was found.
    #[tactic(auto, unfolding(crate::specs::Basis::basis_at))]
    fn basis_at(self, depth: Depth) -> Basis
        ensures { result ≡ basis_at self.entry.sheet.depths.now self.entry.curves depth.0 }
    {
        let depths = self.sheet.depths;
        if depth.0 < depths[0] {
            return Basis::Start;
        }
        if depths[depths.len() - 1] < depth.0 {
            return Basis::Held;
        }
        if mixes(self.curves) {
            return Basis::Between;
        }
        if depths[segment(depths, depth.0)] == depth.0 {
            return Basis::Printed;
        }
        Basis::Between
    }

    // The least grid depth whose percent is at least the target, with that percent. The grid is halved, which is no walk over a list.
    fn least(self, target: Percent) -> Option<(Depth, Percent)>
        ensures { Reaching self.entry.sheet.depths.now self.entry.sheet.percents.now self.entry.curves target.0 result }
    {
        let mut low = Depth::LOWEST;
        let mut high = Depth::HIGHEST + 1;
        // What was found at high.
        let mut found = None;
        for _ in 0..TRIALS {
            if high <= low {
                break;
            }
            let middle = low + (high - low) / 2;
            let percent = self.percent_at(Depth(middle));
            if percent.0 < target.0 {
                low = middle + 1;
            } else {
                high = middle;
                found = Some((Depth(middle), percent));
            }
        }
        found
    }
}

impl Basis {
    // The rules' number of a basis.
    pub fn number(self) -> u64
        ensures { result ≡ basis_number self }
    {
        self as u64
    }
}

// The percent of a lent sheet at a site rate and a depth, with its basis.
pub fn percent(
    sheet: Sheet,
    mode: Mode,
    rate: Rate,
    depth: Depth,
) -> Result<(Percent, Basis), SheetError>
    ensures { result ≡ percent_answer sheet.entry.depths.now sheet.entry.rates.now sheet.entry.percents.now mode rate.0 depth.0 }
{
    let admitted = Admitted::admit(sheet, mode, rate)?;
    if Depth::HIGHEST < depth.0 {
        return Err(SheetError::Refused(Refusal::AmountOutOfRange));
    }
    Ok((admitted.percent_at(depth), admitted.basis_at(depth)))
}

// The least grid depth of a lent sheet whose percent is at least the target, with that percent and its basis.
pub fn reach(sheet: Sheet, mode: Mode, rate: Rate, target: Percent) -> Result<Reached, SheetError>
    ensures { result ≡ reach_of sheet.entry.depths.now sheet.entry.rates.now sheet.entry.percents.now mode rate.0 target.0 }
{
    let admitted = Admitted::admit(sheet, mode, rate)?;
    if units::MOST_PERCENT < target.0 {
        return Ok(Reached::TooHigh);
    }
    match admitted.least(target) {
        Some((depth, percent)) => Ok(Reached::Found(depth, percent, admitted.basis_at(depth))),
        None => Ok(Reached::Short),
    }
}
