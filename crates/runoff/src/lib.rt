// Rules, "Pervious runoff": Table 3-4, and the sheet of its straight lines at every grid depth.
#![tactic(auto)]

mod entries;

ghost use Rattle.std.specs.Prelude.{◌≡◌, ◌≤◌, ◌<◌};
ghost use Rattle.units.specs.Limits.{highest_depth};
ghost use Rattle.runoff.specs.Runoff.{rows, entry_place, sheet_length, entry_of, runoff_answer};

pub use entries::sheet;
use refusal::Refusal;
use units::{Column, Depth};

// Table 3-4 as document 001 prints it, hundredths of an inch: rain, then the runoff on A, B, C, CD, D. `rows` is the same list.
const ROWS: [[u64; 6]; 10] = [
    [10, 0, 0, 0, 0, 0],
    [20, 0, 0, 1, 2, 2],
    [40, 0, 0, 3, 5, 6],
    [50, 0, 1, 5, 7, 9],
    [60, 1, 2, 6, 9, 11],
    [80, 2, 3, 9, 13, 16],
    [100, 3, 4, 12, 17, 21],
    [120, 4, 5, 14, 27, 39],
    [150, 8, 11, 39, 55, 72],
    [200, 14, 22, 69, 89, 108],
];

// The ten printed rows.
pub fn printed_rows() -> [[u64; 6]; 10]
    ensures { result ≡ rows }
{
    ROWS
}

// How many depths the sheet has for each soil.
const GRID: usize = 201;

// Runoff: thirty-thousandths of an inch.
#[derive(Clone, Copy)]
pub struct RunoffDepth(pub u64);

// The sheet's entry for a column at a depth, refused 9 above the grid. The sheet is lent, so that a
// caller who looks up many entries builds it once.
#[tactic(auto, using(crate::proofs::Answers::entry_granted, crate::proofs::Answers::entry_refused))]
pub fn entry(sheet: &[u16; 1005], column: Column, depth: Depth) -> Result<RunoffDepth, Refusal>
    ensures { result ≡ entry_of sheet.now column depth }
{
    if depth.0 <= Depth::HIGHEST {
        let found = sheet[place_of(column, depth)];
        return Ok(RunoffDepth(u64::from(found)));
    }
    Err(Refusal::AmountOutOfRange)
}

// Where the entry of a column and a grid depth stands in the sheet. The sheet is flat, and its place is worked out: the edit
// `one_depth_off`, a place that counts 200 depths to a soil, has no form over rows.
#[tactic(auto, using(units::proofs::Columns::place_most))]
fn place_of(column: Column, depth: Depth) -> usize
    requires { depth.0 ≤ highest_depth }
    ensures { (result ≡ entry_place column depth.0) × (result < sheet_length) }
{
    units::place(column) * GRID + depth.0 as usize
}

// The runoff of a table column at a depth, refused 9 above the grid.
#[tactic(auto, using(crate::proofs::Answers::entry_of_sheet))]
pub fn runoff(column: Column, depth: Depth) -> Result<RunoffDepth, Refusal>
    ensures { result ≡ runoff_answer column depth }
{
    let all = sheet();
    entry(&all, column, depth)
}
