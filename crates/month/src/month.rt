// The readings of a month, and what is printed of them.
use crate::meter::Meter;
use crate::progress;
use crate::progress::{Advance, Outcome};
use registers::register::Register;
use std::io;

// The numbers that were read at the midnight which begins a day.
#[derive(Clone, Copy)]
struct DatedNumbers {
    day: u32,
    numbers: [u64; 2],
}

const READINGS: [DatedNumbers; 6] = [
    DatedNumbers {
        day: 0,
        numbers: [99_874, 7_700_310],
    },
    DatedNumbers {
        day: 7,
        numbers: [99_951, 7_700_352],
    },
    DatedNumbers {
        day: 14,
        numbers: [100_030, 7_700_391],
    },
    DatedNumbers {
        day: 14,
        numbers: [30, 7_700_391],
    },
    DatedNumbers {
        day: 21,
        numbers: [102, 7_700_436],
    },
    DatedNumbers {
        day: 28,
        numbers: [185, 7_700_477],
    },
];

fn print_outcome(rt: &impl Print, reading: DatedNumbers, outcome: Outcome) -> io::Result<()> {
    let DatedNumbers {
        day,
        numbers: [on_site, remote],
    } = reading;
    print!(rt; "day {day:2}: day dial {on_site:6}, night dial {remote:8}: ")?;
    match outcome {
        Ok(None) => println!(rt; "the first reading"),
        Ok(Some(Advance { since, energy })) => println!(rt; "{energy} Wh since day {since}"),
        Err(fault) => println!(rt; "refused, {fault}"),
    }
}

pub fn print(rt: &impl Print, meter: &Meter) -> io::Result<()> {
    let dials = meter.dials();
    let full_scale = meter.full_scale();
    println!(rt; "A meter of {dials} dials, full scale {full_scale} Wh")?;
    let mut last = None;
    let mut energy = 0;
    for reading in READINGS {
        let outcome = progress::enter(&mut last, meter, reading.day, &reading.numbers);
        print_outcome(rt, reading, outcome)?;
        energy += progress::energy(outcome);
    }
    println!(rt; "{energy} Wh in the month")
}
