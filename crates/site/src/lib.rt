// Rules, "Site and load" and "Numbers of sub-areas": sub-areas, the site record that holds them, the judging of a record, adding to it
// and removing from it.
#![tactic(auto)]

ghost use Rattle.std.specs.Prelude.{[], ◌∷◌, ◌≡◌, ◌==◌, position};
ghost use Rattle.std.proofs.Common.{rules};
ghost use Rattle.site.specs.Cases.{land_uses, land_place, covers, cover_place, soils, soil_place};
ghost use Rattle.site.specs.Soils.{named, suits, column_of, load_column, runoff_column};
ghost use Rattle.site.specs.Parts.{impervious_of, empty_site};
ghost use Rattle.site.specs.Judging.{fits, has_room, judged_from, rises_to, judged, impervious};
ghost use Rattle.site.specs.Adding.{add_answer, added_to, added, placed};
ghost use Rattle.site.specs.Removing.{removed};
ghost use Rattle.site.specs.Inner.{grown_by};

use refusal::Refusal;
use units::{Area, Coded, Column};

#[derive(Clone, Copy, Debug, PartialEq, Eq)]
pub enum LandUse {
    Com,
    Ind,
    Hdr,
    Mdr,
    Ldr,
    Hwy,
    For,
    Open,
    Ag,
}

// Impervious or pervious.
#[derive(Clone, Copy, Debug, PartialEq, Eq)]
pub enum Cover {
    Imp,
    Per,
}

#[derive(Clone, Copy, Debug, PartialEq, Eq)]
pub enum Soil {
    A,
    B,
    C,
    CD,
    D,
    // Not known; it stays U in the record.
    U,
    // `-`, under impervious cover.
    NoSoil,
}

impl Coded for LandUse {
    ghost cases = { land_uses };

    ghost place = { land_place };

    ghost in_order = { Prim.search rules };

    fn cases() -> &'static [LandUse] {
        &[
            LandUse::Com,
            LandUse::Ind,
            LandUse::Hdr,
            LandUse::Mdr,
            LandUse::Ldr,
            LandUse::Hwy,
            LandUse::For,
            LandUse::Open,
            LandUse::Ag,
        ]
    }

    fn place(self) -> usize {
        self as usize
    }
}

impl Coded for Cover {
    ghost cases = { covers };

    ghost place = { cover_place };

    ghost in_order = { Prim.search rules };

    fn cases() -> &'static [Cover] {
        &[Cover::Imp, Cover::Per]
    }

    fn place(self) -> usize {
        self as usize
    }
}

impl Coded for Soil {
    ghost cases = { soils };

    ghost place = { soil_place };

    ghost in_order = { Prim.search rules };

    fn cases() -> &'static [Soil] {
        &[
            Soil::A,
            Soil::B,
            Soil::C,
            Soil::CD,
            Soil::D,
            Soil::U,
            Soil::NoSoil,
        ]
    }

    fn place(self) -> usize {
        self as usize
    }
}

#[derive(Clone, Copy)]
pub struct SubArea {
    pub land: LandUse,
    pub cover: Cover,
    pub soil: Soil,
    pub area: Area,
}

// How many sub-areas a site holds at most.
pub const MOST_PARTS: usize = 32;

// The counter at which all numbers are spent.
pub const SPENT_AT: u32 = 1_000_000;

// The first `count` places hold the sub-areas and their numbers; no call reads past them. The counter is the number that the next
// sub-area gets. The memory is fixed, so that there is no Vec; any record may be
// handed in, a count above 32 is refused 14, and the theorem PastCountUnread speaks of both lists past the count.
#[derive(Clone, Copy)]
pub struct Site {
    pub parts: [SubArea; MOST_PARTS],
    pub count: usize,
    pub numbers: [u32; MOST_PARTS],
    pub counter: u32,
}

// What a site with one sub-area more answers: its total area, and the number that the sub-area got.
#[derive(Clone, Copy)]
pub struct Placed {
    pub total: Area,
    pub number: u32,
}

// A soil other than `-`.
fn is_named(soil: Soil) -> bool
    ensures { result ≡ named soil }
{
    soil != Soil::NoSoil
}

// Pervious cover asks for a named soil, impervious cover for none.
fn soil_suits(cover: Cover, soil: Soil) -> bool
    ensures { result ≡ suits cover soil }
{
    is_named(soil) == (cover == Cover::Per)
}

// The column of a soil in a table that reads an unknown soil in the column that is given.
fn column(soil: Soil, unknown: Column) -> Column
    ensures { result ≡ column_of unknown soil }
{
    match soil {
        Soil::A => Column::A,
        Soil::B => Column::B,
        Soil::C => Column::C,
        Soil::CD => Column::CD,
        Soil::D => Column::D,
        Soil::U | Soil::NoSoil => unknown,
    }
}

// The column of a soil in Tables 3-1 and 3-2, where one that is not known is read as C.
pub fn load_column(soil: Soil) -> Column
    ensures { result ≡ load_column soil }
{
    column(soil, Column::C)
}

// The column of a soil in Table 3-4, where one that is not known is read as D.
pub fn runoff_column(soil: Soil) -> Column
    ensures { result ≡ runoff_column soil }
{
    column(soil, Column::D)
}

// A sub-area is not refused 2.
fn part_fits(part: SubArea) -> bool
    ensures { result ≡ fits part }
{
    1 <= part.area.0 && part.area.0 <= units::MOST_AREA && soil_suits(part.cover, part.soil)
}

// An area added to a total is not refused 3.
fn has_room(total: Area, area: Area) -> bool
    ensures { result ≡ has_room total.0 area.0 }
{
    area.0 <= units::MOST_AREA && total.0 <= units::MOST_AREA - area.0
}

// A total area with an area added to it, or 3.
#[tactic(auto, using(crate::proofs::Tests::grow_crowded, crate::proofs::Tests::sum_fits, crate::proofs::Tests::grow_granted))]
fn grow(total: Area, area: Area) -> Result<Area, Refusal>
    ensures { result ≡ grown_by total.0 area.0 }
{
    if !has_room(total, area) {
        return Err(Refusal::TotalAreaPassed);
    }
    Ok(Area(total.0 + area.0))
}

// One sub-area more, judged on the total area of those before it, by 2 and then 3: the new total, or the refusal.
#[tactic(auto, using(crate::proofs::Tests::try_unfit, crate::proofs::Tests::try_fit))]
pub fn try_part(total: Area, part: SubArea) -> Result<Area, Refusal>
    ensures { result ≡ judged_from total.0 (part ∷ []) }
{
    if !part_fits(part) {
        return Err(Refusal::UnfitSubArea);
    }
    grow(total, part.area)
}

// The numbers of a record are not refused 16: its counter is not 0, and they rise strictly from at least 1 and stay below it. All are
// looked at, wherever they fail: so the compiler takes several at once.
#[tactic(auto, using(crate::proofs::Numbering::rise_on, crate::proofs::Numbering::rise_ends))]
pub fn numbered(numbers: &[u32], counter: u32) -> bool
    ensures { result ≡ rises_to counter 0 numbers.now }
{
    let mut rises = true;
    let mut low = 0;
    for &number in numbers {
        rises &= low < number;
        low = number;
    }
    rises & (low < counter)
}

// A sub-area's part in the impervious area.
fn impervious_part(part: SubArea) -> Area
    ensures { result.0 ≡ impervious_of part }
{
    match part.cover {
        Cover::Imp => part.area,
        Cover::Per => Area(0),
    }
}

// What an add answers, given the count, the counter and the total area of a site: the new total, or the refusal. Where it is
// granted there is a place for the sub-area at the count, and a number for it.
#[tactic(auto, using(crate::proofs::Adding::add_unfit, crate::proofs::Adding::add_full, crate::proofs::Adding::add_spent, crate::proofs::Adding::add_grows))]
pub fn add_answer(count: usize, counter: u32, total: Area, part: SubArea) -> Result<Area, Refusal>
    ensures { result ≡ add_answer count counter total.0 part }
{
    if !part_fits(part) {
        return Err(Refusal::UnfitSubArea);
    }
    if MOST_PARTS <= count {
        return Err(Refusal::SiteFull);
    }
    if SPENT_AT <= counter {
        return Err(Refusal::NumbersSpent);
    }
    grow(total, part.area)
}

// The first place at which a number stands among some.
fn place_of(number: u32, numbers: &[u32]) -> Option<usize>
    ensures { result ≡ position (λ held. held == number) numbers.now }
{
    numbers.iter().position(|held| *held == number)
}

impl Site {
    // A site without sub-areas.
    pub fn empty() -> Site
        ensures { result ≡ empty_site }
    {
        let blank = SubArea {
            land: LandUse::Com,
            cover: Cover::Imp,
            soil: Soil::A,
            area: Area(0),
        };
        Site {
            parts: [blank; MOST_PARTS],
            count: 0,
            numbers: [0; MOST_PARTS],
            counter: 1,
        }
    }

    // A record that is judged fine answers with its total area: its count is tried, then each sub-area on those before it, then its
    // numbers.
    #[tactic(auto, using(crate::proofs::Walking::overfull, crate::proofs::Trying::none_tried, crate::proofs::Trying::tried_next))]
    pub fn judge(&self) -> Result<Area, Refusal>
        ensures { result ≡ judged self.now }
    {
        if MOST_PARTS < self.count {
            return Err(Refusal::SiteFull);
        }
        let mut total = Area(0);
        for &part in &self.parts[..self.count] {
            total = try_part(total, part)?;
        }
        if !numbered(&self.numbers[..self.count], self.counter) {
            return Err(Refusal::NumberNotHeld);
        }
        Ok(total)
    }

    // The impervious area of a site.
    #[tactic(auto, using(crate::proofs::Judging::count_known))]
    pub fn impervious_area(&self) -> Result<Area, Refusal>
        ensures { result ≡ impervious self.now }
    {
        self.judge()?;
        Ok(Area(
            self.parts[..self.count]
                .iter()
                .map(|part| impervious_part(*part).0)
                .sum(),
        ))
    }

    // The add to a site that is judged fine with the total area that is given. Where it is granted the sub-area gets the counter for its
    // number; where it is refused the site stays as it was.
    fn add_to(&mut self, total: Area, part: SubArea) -> Result<Placed, Refusal>
        ensures site { self.new ≡ (added_to self.old total.0 part).site }
        ensures answer { result ≡ placed (added_to self.old total.0 part) }
    {
        let total = add_answer(self.count, self.counter, total, part)?;
        let number = self.counter;
        self.parts[self.count] = part;
        self.numbers[self.count] = number;
        self.count += 1;
        self.counter += 1;
        Ok(Placed { total, number })
    }

    // The record is judged, then the sub-area is added.
    pub fn add(&mut self, part: SubArea) -> Result<Placed, Refusal>
        ensures site { self.new ≡ (added self.old part).site }
        ensures answer { result ≡ placed (added self.old part) }
    {
        let total = self.judge()?;
        self.add_to(total, part)
    }

    // The record is judged, then the sub-area with the number is taken out, and those behind it move up. The answer is the total area of
    // those that are left; where it is refused the site stays as it was.
    #[tactic(auto, using(crate::proofs::Judging::count_known))]
    pub fn remove(&mut self, number: u32) -> Result<Area, Refusal>
        ensures site { self.new ≡ (removed self.old number).site }
        ensures answer { result ≡ (removed self.old number).answer }
    {
        let total = self.judge()?;
        let Some(place) = place_of(number, &self.numbers[..self.count]) else {
            return Err(Refusal::NumberNotHeld);
        };
        let area = self.parts[place].area;
        self.parts.copy_within(place + 1..self.count, place);
        self.numbers.copy_within(place + 1..self.count, place);
        self.count -= 1;
        Ok(Area(total.0 - area.0))
    }
}
