// How long the questions to a table take. The table has an entry for every category and day, so its index is as long as
// it can be. What was answered goes to standard output, and the times to standard error.
#![tactic(auto)]

use load_shapes::day::CategoryDay;
use load_shapes::de_minimis::DeMinimis;
use load_shapes::even::EvenSource;
use load_shapes::source::Source;
use load_shapes::substitute::Substitute;
use shape_table::table::ShapeTable;
use std::alloc::{AllocError, Global};
use std::rt::Clock;
use std::time::Instant;

// Where the one row starts: after the header of 16 bytes, and 8 bytes for the entry of each category and day.
const ROW_OFFSET: u32 = 16 + 8 * 64 * 400;

// 96 periods, and an entry for each of 64 categories and 400 days, which share a row.
fn build(heap: Global) -> Result<Vec<u8>, AllocError> {
    let mut bytes = Vec::new(heap);
    for number in [96u16, 64 * 400, 1, 0] {
        bytes.extend_from_slice(&number.to_le_bytes())?;
    }
    for offset in [16, ROW_OFFSET] {
        bytes.extend_from_slice(&offset.to_le_bytes())?;
    }
    for category in 0..64 {
        for day in 0..400 {
            for number in [category, day, 9, 0u16] {
                bytes.extend_from_slice(&number.to_le_bytes())?;
            }
        }
    }
    for _ in 0..96 {
        bytes.extend_from_slice(&7u16.to_le_bytes())?;
    }
    Ok(bytes)
}

// The sum of all weights, asked for period by period.
fn by_period(source: &impl Source) -> u64 {
    let mut sum: u64 = 0;
    for category in 0..64 {
        for day in 0..400 {
            for period in 0..96 {
                if let Some(weight) = source.weight(CategoryDay { category, day }, period) {
                    sum = sum.wrapping_add(u64::from(weight));
                }
            }
        }
    }
    sum
}

// The sum of all weights, asked for day by day.
fn by_day(source: &impl Source) -> u64 {
    let mut sum: u64 = 0;
    for category in 0..64 {
        for day in 0..400 {
            if let Some(shape) = source.shape(CategoryDay { category, day }) {
                for weight in shape.weights {
                    sum = sum.wrapping_add(u64::from(weight));
                }
            }
        }
    }
    sum
}

// The nanoseconds that each of so many questions took.
fn each(rt: &impl Clock, start: Instant, questions: u128) -> anyhow::Result<u128> {
    Ok(start.elapsed(rt)?.as_nanos() / questions.max(1))
}

fn time(
    rt: &(impl Print + Eprint + Clock),
    name: &str,
    source: &impl Source,
) -> anyhow::Result<()> {
    let start = Instant::now(rt)?;
    let sum = by_period(source);
    let period = each(rt, start, 64 * 400 * 96)?;
    let start = Instant::now(rt)?;
    let again = by_day(source);
    let day = each(rt, start, 64 * 400)?;
    println!(rt; "{name}: weights add to {sum} by period and {again} by day")?;
    eprintln!(rt; "{name}: {period} ns a period, {day} ns a whole day")?;
    Ok(())
}

fn time_layers(
    rt: &(impl Print + Eprint + Clock),
    table: ShapeTable,
    even: EvenSource,
) -> anyhow::Result<()> {
    let enough = DeMinimis::new(table, 3);
    time(rt, "table", &table)?;
    time(rt, "de-minimis layer over it", &enough)?;
    time(
        rt,
        "substitute layer over that",
        &Substitute::new(enough, even),
    )?;
    time(rt, "even source", &even)
}

fn main(rt: HostRuntime) -> anyhow::Result<()> {
    let bytes = build(rt.alloc())?;
    let mut table = ShapeTable::empty();
    let start = Instant::now(&rt)?;
    let opened = table.open(&bytes);
    let spent = start.elapsed(&rt)?.as_micros();
    eprintln!(rt; "opened in {spent} us")?;
    if let Err(fault) = opened {
        println!(rt; "no table: {fault}")?;
    }
    match EvenSource::new(96) {
        Ok(even) => time_layers(&rt, table, even),
        Err(fault) => {
            println!(rt; "no even source: {fault}")?;
            Ok(())
        }
    }
}
