// Rules, "Numbers of sub-areas": a program for tests. It reads a site record and a run of steps from standard input, makes the calls
// `Site::add` and `Site::remove` one after the other, each on the site that the one before handed back, granted or not, and prints a
// line for each. Its input, of which it reads 4,096 bytes at most, has lines of numbers with one space between each two, and the word of
// a step before its numbers:
//
//     COUNT COUNTER                 of the record
//     NUMBER USE COVER SOIL AREA    32 lines: its places in turn, also those past the count
//     add USE COVER SOIL AREA       a step
//     remove NUMBER                 a step
//
// USE is 0 to 8 in the order of the rules, COVER is 0 for impervious and 1 for pervious, SOIL is 0 to 6 for A, B, C, CD, D, U and
// `-`. A number has 1 to 14 digits, and no zero leads; COUNTER and NUMBER have at most 32 bits. At the first line that is not of this
// form the program ends. The line of a step is
//
//     ANSWER GIVEN TOTAL COUNT COUNTER PLACE.. LOAD
//
// with the refusal's number or 0, the number that a sub-area got or 0, the new total area or 0; then the record that was handed back,
// whole, with its count, its counter and its 32 places, each by the five numbers that it has in the input; and its load of
// phosphorus, or 0 where the record is refused.
#![tactic(auto)]

use arrayvec::ArrayVec;
use refusal::Refusal;
use site::{Placed, Site, SubArea};
use std::io;
use std::io::Read;
use units::{Area, Coded, Nutrient};

// How many bytes of its input the program reads at most.
const ROOM: usize = 4096;

// A call on a site.
enum Step {
    Add(SubArea),
    Remove(u32),
}

impl Step {
    // The step that a line says.
    fn read(line: &[u8]) -> Option<Step> {
        match line.strip_prefix(b"add ") {
            Some(rest) => sub_area(numbers(rest)?).map(Step::Add),
            None => {
                let [number] = numbers::<1>(line.strip_prefix(b"remove ")?)?;
                Some(Step::Remove(u32::try_from(number).ok()?))
            }
        }
    }

    // Makes the step on a site. A removal gives no number.
    fn make(self, site: &mut Site) -> Result<Placed, Refusal> {
        match self {
            Step::Add(part) => site.add(part),
            Step::Remove(number) => {
                let total = site.remove(number)?;
                Ok(Placed { total, number: 0 })
            }
        }
    }
}

// The numbers of a line, as many as are asked for, with one space between each two and a line feed behind the last.
fn numbers<const N: usize>(line: &[u8]) -> Option<[u64; N]> {
    let mut fields = line.strip_suffix(b"\n")?.split(|byte| *byte == b' ');
    let mut numbers = [0; N];
    for number in &mut numbers {
        *number = text::number(fields.next()?)?;
    }
    fields.next().is_none().then_some(numbers)
}

// The sub-area that four numbers tell.
fn sub_area([land, cover, soil, area]: [u64; 4]) -> Option<SubArea> {
    Some(SubArea {
        land: Coded::coded(land).ok()?,
        cover: Coded::coded(cover).ok()?,
        soil: Coded::coded(soil).ok()?,
        area: Area(area),
    })
}

// The record that the first lines of a text say.
fn record(text: &[u8]) -> Option<Site> {
    let mut lines = text.split_inclusive(|byte| *byte == b'\n');
    let [count, counter] = numbers::<2>(lines.next()?)?;
    let mut site = Site {
        count: count as usize,
        counter: u32::try_from(counter).ok()?,
        ..Site::empty()
    };
    for (held, part) in site.numbers.iter_mut().zip(&mut site.parts) {
        let [number, land, cover, soil, area] = numbers::<5>(lines.next()?)?;
        *held = u32::try_from(number).ok()?;
        *part = sub_area([land, cover, soil, area])?;
    }
    Some(site)
}

// Prints the line of a step.
fn say(rt: &impl Print, answer: Result<Placed, Refusal>, site: &Site) -> io::Result<()> {
    match answer {
        Ok(placed) => print!(rt; "0 {} {} ", placed.number, placed.total.0)?,
        Err(why) => print!(rt; "{} 0 0 ", refusal::number(why))?,
    }
    print!(rt; "{} {} ", site.count, site.counter)?;
    for (number, part) in site.numbers.iter().zip(&site.parts) {
        print!(rt;
            "{number} {} {} {} {} ",
            part.land.place(),
            part.cover.place(),
            part.soil.place(),
            part.area.0
        )?;
    }
    let load = loads::load(*site, Nutrient::P).map_or(0, |load| load.0);
    println!(rt; "{load}")
}

// Reads a record and makes the steps behind it, as far as the lines are of the form.
fn run(rt: &impl Print, text: &[u8]) -> io::Result<()> {
    let Some(mut site) = record(text) else {
        return Ok(());
    };
    let lines = text.split_inclusive(|byte| *byte == b'\n');
    for step in lines.skip(1 + site::MOST_PARTS).map_while(Step::read) {
        let answer = step.make(&mut site);
        say(rt, answer, &site)?;
    }
    Ok(())
}

fn main(rt: HostRuntime) -> io::Result<()> {
    let mut text = ArrayVec::<u8, ROOM>::new();
    io::copy(&mut rt.stdin().take(ROOM as u64), &mut text)?;
    run(&rt, &text)
}
