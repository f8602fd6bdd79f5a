// Rules, "Numbers to hold on to", "Numbers of sub-areas", "Writing a job" and "Checking an answer": runs the numbers that are told
// there, volumes on a soil that is not known, a run of adds and removals, every entry of the published tables, checks of claimed
// answers and the writing of jobs through the library, and prints what each gives. The stored output was made from document 001 and
// the rules without the library, and tools/expected.py says what each line holds.
#![tactic(auto)]

use credit::{Figures, Wanted};
use curve::{Basis, Mode, SheetError};
use job::{Job, Task};
use probe::Reading;
use refusal::Refusal;
use sheet::Sheet;
use site::{Cover, LandUse, Site, Soil, SubArea};
use std::fmt::{self, Display, Formatter};
use std::io;
use units::{Area, Coded, Column, Depth, Nutrient, Percent, Rate, Volume};

// Numbers of a line, with a space before each.
#[derive(Clone, Copy)]
struct Numbers<'a, T>(&'a [T]);

impl<T: Display> Display for Numbers<'_, T> {
    fn fmt<W: fmt::Write>(&self, f: &mut Formatter<W>) -> fmt::Result {
        for number in self.0 {
            write!(f, " {number}")?;
        }
        Ok(())
    }
}

// 0 and a value, or the number of a refusal and 0.
fn told(found: Result<u64, Refusal>) -> [u64; 2] {
    match found {
        Ok(value) => [0, value],
        Err(why) => [refusal::number(why), 0],
    }
}

// The runoff of a column at a rain.
fn say_runoff(rt: &impl Print, column: Column, rain: u64) -> io::Result<()> {
    match runoff::runoff(column, Depth(rain)) {
        Ok(depth) => println!(rt; "runoff {} {rain} {}", units::place(column), depth.0),
        Err(why) => println!(rt; "runoff {}", refusal::number(why)),
    }
}

// The rules' three numbers, then Table 3-4, with V of one acre whose soil is not known at the rain of each row.
fn runoffs(rt: &impl Print) -> io::Result<()> {
    say_runoff(rt, Column::A, 55)?;
    say_runoff(rt, Column::CD, 110)?;
    say_runoff(rt, Column::D, 200)?;
    let acre = with(Site::empty(), LandUse::Com, Cover::Per, Soil::U, 100);
    for [rain, ..] in runoff::printed_rows() {
        for column in [Column::A, Column::B, Column::C, Column::CD, Column::D] {
            say_runoff(rt, column, rain)?;
        }
        println!(rt; "unknown {rain} {}", volume_at(acre, rain))?;
    }
    Ok(())
}

// The rules' sheet T with 65000 read as 35000.
fn sheet_of_the_rules(rt: &impl Print) -> io::Result<()> {
    let sheet = Sheet {
        depths: &[20, 60, 100],
        rates: &[25, 75],
        percents: &[20000, 50000, 70000, 40000, 35000, 80000],
    };
    match sheet.judge() {
        Ok(()) => println!(rt; "sheet 0 0 0"),
        Err(fault) => {
            let why = refusal::number(Refusal::UnfitSheet);
            println!(rt; "sheet {why} {} {}", fault.part.number(), fault.place)
        }
    }
}

// How each percent of the rules' sheet T is found: at every depth, at a rate in mode step and at rates of the sheet, beside them and
// between them in mode mix.
fn bases(rt: &impl Print) -> io::Result<()> {
    let sheet = Sheet {
        depths: &[20, 60, 100],
        rates: &[25, 75],
        percents: &[20000, 50000, 70000, 40000, 65000, 80000],
    };
    for (mode, rate) in [
        (Mode::Step, 50),
        (Mode::Mix, 25),
        (Mode::Mix, 26),
        (Mode::Mix, 50),
        (Mode::Mix, 74),
        (Mode::Mix, 75),
        (Mode::Mix, 76),
    ] {
        for depth in Depth::LOWEST..=Depth::HIGHEST {
            let [percent, basis] = percent_in(curve::percent(
                sheet,
                mode,
                Rate(rate),
                Depth(depth),
            ));
            println!(rt; "basis {} {rate} {depth} {percent} {basis}", mode.place())?;
        }
    }
    Ok(())
}

// The rules' five readings, and two in millimetres whose floats lie just below a hundredth.
fn readings(rt: &impl Print) -> io::Result<()> {
    for reading in [
        Reading::InchesPerHour(0.25),
        Reading::InchesPerHour(0.5),
        Reading::MillimetresPerHour(127.0),
        Reading::InchesPerHour(0.52),
        Reading::InchesPerHour(1.02),
        Reading::MillimetresPerHour(6.858),
        Reading::MillimetresPerHour(210.058),
    ] {
        let [why, rate] = told(probe::rate(reading).map(|rate| rate.0));
        println!(rt; "reading {why} {rate}")?;
    }
    Ok(())
}

fn part(land: LandUse, cover: Cover, soil: Soil, area: u64) -> SubArea {
    SubArea {
        land,
        cover,
        soil,
        area: Area(area),
    }
}

// A site with a sub-area more, where the add is granted.
fn with(mut site: Site, land: LandUse, cover: Cover, soil: Soil, area: u64) -> Site {
    let _ = site.add(part(land, cover, soil, area));
    site
}

// The load job of the rules.
fn sample(rt: &impl Print) -> io::Result<()> {
    let one = with(Site::empty(), LandUse::Ind, Cover::Imp, Soil::NoSoil, 1013);
    let two = with(one, LandUse::Com, Cover::Per, Soil::C, 185);
    let three = with(two, LandUse::For, Cover::Per, Soil::C, 89);
    let [why, load] = told(loads::load(three, Nutrient::N).map(|load| load.0));
    println!(rt; "sample {why} {load}")
}

// Tables 3-1 and 3-2, by the load of one acre: each land use pervious on each soil, then impervious, which has none.
fn rates(rt: &impl Print) -> io::Result<()> {
    for &nutrient in Nutrient::cases() {
        for &land in LandUse::cases() {
            for &soil in Soil::cases() {
                let cover = match soil {
                    Soil::NoSoil => Cover::Imp,
                    _ => Cover::Per,
                };
                let acre = with(Site::empty(), land, cover, soil, 100);
                let [why, load] = told(loads::load(acre, nutrient).map(|load| load.0));
                println!(rt;
                    "load {} {} {} {why} {load}",
                    nutrient.place(),
                    land.place(),
                    soil.place()
                )?;
            }
        }
    }
    Ok(())
}

// A step of the run: an area is added, a number is removed, or another count or counter is put into the record.
#[derive(Clone, Copy)]
enum Step {
    Add(u64),
    Remove(u32),
    Count(usize),
    Counter(u32),
}

impl Step {
    // Makes the step on a site; an add, which is of a commercial impervious sub-area, or a removal prints its line.
    fn make(self, rt: &impl Print, site: &mut Site) -> io::Result<()> {
        match self {
            Step::Add(area) => {
                let placed = site.add(part(LandUse::Com, Cover::Imp, Soil::NoSoil, area));
                say_step(rt, placed.map(|placed| placed.total), site)
            }
            Step::Remove(number) => {
                let total = site.remove(number);
                say_step(rt, total, site)
            }
            Step::Count(count) => {
                site.count = count;
                Ok(())
            }
            Step::Counter(counter) => {
                site.counter = counter;
                Ok(())
            }
        }
    }
}

// A line of the run. The numbers are those before the count.
fn say_step(rt: &impl Print, answer: Result<Area, Refusal>, site: &Site) -> io::Result<()> {
    let [why, total] = told(answer.map(|total| total.0));
    let held = &site.numbers[..site.count.min(site::MOST_PARTS)];
    println!(rt;
        "run {why} {total} {} {}{}",
        site.count,
        site.counter,
        Numbers(held)
    )
}

// A run of adds and removals, from a site with room for one sub-area more.
fn run(rt: &impl Print) -> io::Result<()> {
    let mut site = Site::empty();
    for area in 1000..1031 {
        Step::Add(area).make(rt, &mut site)?;
    }
    for step in [
        Step::Count(32),
        Step::Add(5),
        Step::Remove(1),
        Step::Count(31),
        Step::Add(1031),
        Step::Add(1032),
        Step::Add(0),
        Step::Remove(5),
        Step::Count(32),
        Step::Add(7),
        Step::Remove(6),
        Step::Count(31),
        Step::Add(7),
        Step::Remove(5),
        Step::Remove(34),
        Step::Remove(0),
        Step::Counter(1_000_000),
        Step::Add(1),
        Step::Remove(33),
        Step::Add(0),
        Step::Add(968_509),
        Step::Counter(999_999),
        Step::Add(968_509),
        Step::Add(968_508),
        Step::Remove(999_999),
        Step::Add(1),
        Step::Counter(2_000_000),
        Step::Remove(1),
        Step::Count(32),
        Step::Remove(2),
        Step::Count(33),
        Step::Add(0),
        Step::Count(30),
        Step::Counter(0),
        Step::Add(1),
        Step::Counter(32),
        Step::Remove(2),
        Step::Counter(33),
        Step::Remove(2),
        Step::Add(1_000_001),
    ] {
        step.make(rt, &mut site)?;
    }
    Ok(())
}

// The number given back, the depth, the credit, its basis, the volume and the removed load of an answer: zeros beside a refusal.
fn values(answer: Result<Figures, SheetError>) -> [u64; 6] {
    match answer {
        Ok(f) => [
            0,
            f.depth.0,
            f.percent.0,
            f.basis.number(),
            f.volume.0,
            f.removed.0,
        ],
        Err(SheetError::Unfit(_)) => [refusal::number(Refusal::UnfitSheet), 0, 0, 0, 0, 0],
        Err(SheetError::Refused(why)) => [refusal::number(why), 0, 0, 0, 0, 0],
    }
}

// A percent and its basis: zeros where it is refused.
fn percent_in(found: Result<(Percent, Basis), SheetError>) -> [u64; 2] {
    found.map_or([0, 0], |(percent, basis)| [percent.0, basis.number()])
}

// V of a depth; 0 where it is refused.
fn volume_at(site: Site, depth: u64) -> u64 {
    volume::volume(site, Depth(depth)).map_or(0, |volume| volume.0)
}

// A printed percent, by volume and by target, on one commercial impervious acre.
fn say_point(
    rt: &impl Print,
    practice: u64,
    nutrient: Nutrient,
    mode: Mode,
    rate: u64,
    depth: u64,
) -> io::Result<()> {
    let acre = with(Site::empty(), LandUse::Com, Cover::Imp, Soil::NoSoil, 100);
    let found = published::percent(practice, nutrient, mode, Rate(rate), Depth(depth));
    let [percent, basis] = percent_in(found);
    let volume = Wanted::Credit(Volume(volume_at(acre, depth)));
    let target = Wanted::Size(Percent(percent));
    let [why, reached, credit, by, _, removed] = values(credit::answer(
        acre,
        nutrient,
        practice,
        mode,
        Rate(rate),
        volume,
    ));
    let sized = values(credit::answer(acre, nutrient, practice, mode, Rate(rate), target));
    let (nutrient, mode) = (nutrient.place(), mode.place());
    println!(rt;
        "point {practice} {nutrient} {mode} {rate} {depth} {percent} {basis} {why} {reached} {credit} {by} {removed}{}",
        Numbers(&sized)
    )
}

// The points of a practice: those of its sheet, in both modes.
fn points_of(rt: &impl Print, practice: u64, nutrient: Nutrient) -> io::Result<()> {
    let sheet = match published::sheet(practice, nutrient) {
        Ok(sheet) => sheet,
        Err(why) => return println!(rt; "point {practice} {}", refusal::number(why)),
    };
    for &mode in Mode::cases() {
        for &rate in sheet.rates {
            for &depth in sheet.depths {
                say_point(rt, practice, nutrient, mode, rate, depth)?;
            }
        }
    }
    Ok(())
}

// All published tables.
fn points(rt: &impl Print) -> io::Result<()> {
    for practice in 0..=published::LAST_PRACTICE {
        for &nutrient in Nutrient::cases() {
            points_of(rt, practice, nutrient)?;
        }
    }
    Ok(())
}

// The check of an answer text that is claimed for a job: 0 and the end of the text where it is right.
fn say_check(rt: &impl Print, job: &[u8], claimed: &[u8]) -> io::Result<()> {
    let end = claimed.len();
    match review::check(job, claimed) {
        Ok(()) => println!(rt; "check 0 {end} {end}"),
        Err(wrong) => println!(rt; "check {} {} {}", wrong.line, wrong.from, wrong.to),
    }
}

// The load job of the rules.
fn checks_of_sample(rt: &impl Print) -> io::Result<()> {
    let job =
        b"practice=basin\nnutrient=N\nmode=step\nrate=0\ntask=load\namount=0\narea=ind,imp,-,1013\narea=com,per,C,185\narea=for,per,C,89\n";
    let claims: [&[u8]; 15] = [
        // Its answer, and the same cut short.
        b"answer=0\nload=1568350\ndepth=0\ncredit=0\nbasis=none\nvolume=0\nremoved=0\n",
        b"",
        b"answer=0\n",
        b"answer=0",
        b"answer=0\nload=1568350\ndepth=0\ncredit=0\nbasis=none\nvolume=0\nremoved=0",
        // The same with more behind it.
        b"answer=0\nload=1568350\ndepth=0\ncredit=0\nbasis=none\nvolume=0\nremoved=0\nx",
        b"answer=0\nload=1568350\ndepth=0\ncredit=0\nbasis=none\nvolume=0\nremoved=0\n\n",
        b"answer=0\nload=1568350\ndepth=0\ncredit=0\nbasis=none\nvolume=0\nremoved=0\nanswer=0\nload=1568350\ndepth=0\ncredit=0\nbasis=none\nvolume=0\nremoved=0\n",
        // The same with another number, a leading zero and other line ends.
        b"answer=0\nload=1569000\ndepth=0\ncredit=0\nbasis=none\nvolume=0\nremoved=0\n",
        b"answer=0\nload=01568350\ndepth=0\ncredit=0\nbasis=none\nvolume=0\nremoved=0\n",
        b"answer=0\r\nload=1568350\r\ndepth=0\r\ncredit=0\r\nbasis=none\r\nvolume=0\r\nremoved=0\r\n",
        // The same with a line left out, a word for another and a line feed before it, and a refusal.
        b"answer=0\nload=1568350\ndepth=0\ncredit=0\nvolume=0\nremoved=0\n",
        b"answer=0\nload=1568350\ndepth=0\ncredit=0\nbasis=held\nvolume=0\nremoved=0\n",
        b"\nanswer=0\nload=1568350\ndepth=0\ncredit=0\nbasis=none\nvolume=0\nremoved=0\n",
        b"answer=1\nline=0\n",
    ];
    for claimed in claims {
        say_check(rt, job, claimed)?;
    }
    Ok(())
}

// A job whose eighth line is malformed, and one that is too long.
fn checks_of_refused(rt: &impl Print) -> io::Result<()> {
    let job =
        b"practice=trench\nnutrient=P\nmode=step\nrate=40\ntask=credit\namount=1500000000\narea=com,imp,-,400\narea=com,per,c,200\n";
    let claims: [&[u8]; 4] = [
        b"answer=1\nline=8\n",
        b"answer=1\nline=7\n",
        b"answer=1\n",
        b"answer=1\nline=8\nload=0\n",
    ];
    for claimed in claims {
        say_check(rt, job, claimed)?;
    }
    say_check(rt, &[b'x'; 5000], b"answer=1\nline=0\n")
}

// A site of seven sub-areas of a land use: pervious on each soil, and impervious.
fn every_ground(land: LandUse) -> Site {
    let mut site = Site::empty();
    for (cover, soil, area) in [
        (Cover::Per, Soil::A, 1),
        (Cover::Per, Soil::B, 20),
        (Cover::Per, Soil::C, 300),
        (Cover::Per, Soil::CD, 4_000),
        (Cover::Per, Soil::D, 50_000),
        (Cover::Per, Soil::U, 600_000),
        (Cover::Imp, Soil::NoSoil, 345_679),
    ] {
        site = with(site, land, cover, soil, area);
    }
    site
}

// A job written with such a site: the answer, the length, and the text itself.
#[tactic(auto, unfolding(jobtext::specs::Text::job_written, writing::specs::Writing::written_of))]
fn say_written(rt: &impl Print, job: Job, land: LandUse) -> io::Result<()> {
    let mut text = [0u8; jobtext::LONGEST];
    match jobtext::write(job, every_ground(land), &mut text) {
        Ok(length) => {
            println!(rt; "written 0 {length}")?;
            rt.write_all(&text[..length])
        }
        Err(why) => println!(rt; "written {} 0", refusal::number(why)),
    }
}

fn job_of(
    practice: u64,
    nutrient: Nutrient,
    mode: Mode,
    rate: u64,
    task: Task,
    amount: u64,
) -> Job {
    Job {
        practice,
        nutrient,
        mode,
        rate: Rate(rate),
        task,
        amount,
    }
}

// A job of every practice and of every land use.
fn written(rt: &impl Print) -> io::Result<()> {
    let (p, n, step, mix) = (Nutrient::P, Nutrient::N, Mode::Step, Mode::Mix);
    for (job, land) in [
        (job_of(0, p, step, 0, Task::Load, 0), LandUse::Com),
        (job_of(1, n, step, 9, Task::Credit, 10), LandUse::Ind),
        (job_of(2, p, mix, 17, Task::Size, 999), LandUse::Hdr),
        (job_of(3, n, mix, 102, Task::Load, 5_678), LandUse::Mdr),
        (
            job_of(4, p, step, 8_270, Task::Credit, 335_847_600),
            LandUse::Ldr,
        ),
        (job_of(5, n, step, 10_000, Task::Size, 70_000), LandUse::Hwy),
        (
            job_of(6, p, mix, 123_456, Task::Load, 1_100_343_750),
            LandUse::For,
        ),
        (
            job_of(
                7,
                n,
                mix,
                99_999_999_999_999,
                Task::Credit,
                10_000_000_000_000,
            ),
            LandUse::Open,
        ),
        (
            job_of(
                8,
                p,
                step,
                10_203_040_506_070,
                Task::Size,
                99_999_999_999_999,
            ),
            LandUse::Ag,
        ),
    ] {
        say_written(rt, job, land)?;
    }
    Ok(())
}

fn main(rt: HostRuntime) -> io::Result<()> {
    runoffs(&rt)?;
    sheet_of_the_rules(&rt)?;
    bases(&rt)?;
    readings(&rt)?;
    sample(&rt)?;
    rates(&rt)?;
    run(&rt)?;
    points(&rt)?;
    checks_of_sample(&rt)?;
    checks_of_refused(&rt)?;
    written(&rt)
}
