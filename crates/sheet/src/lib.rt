// Rules, "Curve sheets": the test of a sheet, lent as its depths, its rates, and its percents rate by rate.
#![tactic(auto)]

ghost use Rattle.std.specs.Prelude.{◌≡◌, ◌≤◌, ◌*◌, ◌%◌, eqb, length};
ghost use Rattle.sheet.specs.Sheet.{previous, in_step, offending, lengths_fit, offending_rate, offending_percent, without_rates, found, part_number, verdict_of};

use units::Depth;

pub const MOST_DEPTHS: usize = 16;

pub const MOST_RATES: usize = 8;

// A sheet that is lent: its percents stand rate by rate, one for each depth.
#[derive(Clone, Copy)]
pub struct Sheet<'a> {
    pub depths: &'a [u64],
    pub rates: &'a [u64],
    pub percents: &'a [u64],
}

// What of a sheet breaks a rule, in the order in which it is tried: a part's number is its place in it.
#[derive(Clone, Copy, PartialEq, Eq, Debug)]
pub enum Part {
    Lengths,
    Depths,
    Rates,
    Percents,
}

impl Part {
    // The rules' number of a part.
    pub fn number(self) -> u64
        ensures { result ≡ part_number self }
    {
        self as u64
    }
}

// The first part of a sheet that breaks a rule, and the first offending place in it: 0 for wrong lengths.
#[derive(Clone, Copy, PartialEq, Eq, Debug)]
pub struct Fault {
    pub part: Part,
    pub place: usize,
}

// The number before the one at place k in its row of n, 0 at the start of a row, and 0 where there is none. It is a number and no Option:
// each curve starts at depth 0 and percent 0 (the theorem ThroughOrigin of curve).
#[tactic(auto, unfolding(crate::specs::Sheet::previous))]
pub fn previous(xs: &[u64], n: usize, k: usize) -> u64
    ensures { result ≡ previous xs.now n k }
{
    if starts_row(n, k) {
        return 0;
    }
    if k <= xs.len() {
        return xs[k - 1];
    }
    0
}

// Whether a row of n numbers starts at place k.
fn starts_row(n: usize, k: usize) -> bool
    ensures { result ≡ eqb (k % n) 0 }
{
    if n == 0 {
        return k == 0;
    }
    k % n == 0
}

// Whether x is at least gap above low, and at most most. Nothing is added, so nothing can wrap.
#[tactic(auto, unfolding(crate::specs::Sheet::in_step))]
fn in_step(gap: u64, most: u64, low: u64, x: u64) -> bool
    ensures { result ≡ in_step gap most low x }
{
    x <= most && low <= x && gap <= x - low
}

// The first place of a row whose number is not in step. The walk carries the number before.
fn offending(xs: &[u64], gap: u64, most: u64) -> Option<usize>
    ensures { result ≡ found (offending xs.now (length xs.now) gap most) (length xs.now) }
{
    let mut low = 0;
    for (k, &x) in xs.iter().enumerate() {
        if !in_step(gap, most, low, x) {
            return Some(k);
        }
        low = x;
    }
    None
}

// The first percent out of step, row by row of n.
fn offending_percent(percents: &[u64], n: usize) -> Option<usize>
    requires some { 1 ≤ n }
    requires whole { length percents.now % n ≡ 0 }
    ensures { result ≡ found (offending_percent n percents.now) (length percents.now) }
{
    for (j, row) in percents.chunks_exact(n).enumerate() {
        if let Some(place) = offending(row, 0, units::MOST_PERCENT) {
            return Some(j * n + place);
        }
    }
    None
}

// 1 to 16 depths, 1 to 8 rates, and one percent for each rate at each depth.
#[tactic(auto, unfolding(crate::specs::Sheet::lengths_fit))]
fn lengths_fit(depths: usize, rates: usize, percents: usize) -> bool
    ensures { result ≡ lengths_fit depths rates percents }
{
    1 <= depths
        && depths <= MOST_DEPTHS
        && 1 <= rates
        && rates <= MOST_RATES
        && percents == rates * depths
}

// The first rate out of step, unless there is the single rate 0.
#[tactic(auto, unfolding(crate::specs::Sheet::offending_rate))]
fn offending_rate(rates: &[u64]) -> Option<usize>
    ensures { result ≡ found (offending_rate rates.now) (length rates.now) }
{
    if without_rates(rates) {
        return None;
    }
    offending(rates, 1, units::MOST_RATE)
}

// Whether there is the single rate 0, which a practice without rates has.
#[tactic(auto, unfolding(crate::specs::Sheet::without_rates))]
pub fn without_rates(rates: &[u64]) -> bool
    ensures { result ≡ without_rates rates.now }
{
    matches!(rates, [0])
}

impl Sheet<'_> {
    // The verdict on a sheet: its lengths, then its depths, its rates and its percents.
    #[tactic(auto, using(crate::proofs::Lengths::some_depths, crate::proofs::Lengths::whole_rows), unfolding(crate::specs::Sheet::verdict_of))]
    pub fn judge(self) -> Result<(), Fault>
        ensures { result ≡ verdict_of self.entry.depths.now self.entry.rates.now self.entry.percents.now }
    {
        let n = self.depths.len();
        if !lengths_fit(n, self.rates.len(), self.percents.len()) {
            return Err(Fault {
                part: Part::Lengths,
                place: 0,
            });
        }
        if let Some(place) = offending(self.depths, 1, Depth::HIGHEST) {
            return Err(Fault {
                part: Part::Depths,
                place,
            });
        }
        if let Some(place) = offending_rate(self.rates) {
            return Err(Fault {
                part: Part::Rates,
                place,
            });
        }
        if let Some(place) = offending_percent(self.percents, n) {
            return Err(Fault {
                part: Part::Percents,
                place,
            });
        }
        Ok(())
    }
}
