// Pairs at their limits, and pairs of pairs.
use fitting::counter::Counter;
use fitting::panel::SealedPanel;
use registers::dial::Dial;
use registers::fault::RegisterFault;
use registers::pair::Pair;
use registers::register::{Extent, Register};
use std::io;

// Why there is no panel.
const NO_PANEL: &str = "a panel has 1 to 64 dials";

// Why there is no counter.
const NO_COUNTER: &str = "a counter ends at 10^15 or before";

// What the check says of two registers, and what they are as one.
#[derive(Clone, Copy)]
struct Trial {
    checked: Result<(), RegisterFault>,
    extent: Extent,
}

fn try_pair<A: Register, B: Register>(first: A, second: B) -> (Trial, A, B) {
    let checked = Pair::check(&first, &second);
    let pair = Pair::new(first, second);
    let trial = Trial {
        checked,
        extent: pair.extent(),
    };
    let (first, second) = pair.into_parts();
    (trial, first, second)
}

// Two counters of one size, and one of another.
fn try_counters(last: u64, other: u64) -> Option<Trial> {
    let first = Counter::new(last)?;
    match Counter::new(other) {
        Some(second) => {
            let (trial, first, second) = try_pair(first, second);
            let _ = first.into_last();
            let _ = second.into_last();
            Some(trial)
        }
        None => {
            let _ = first.into_last();
            None
        }
    }
}

// Four panels, as a pair of two pairs.
fn try_panels(dials: [usize; 4]) -> Option<Trial> {
    let [a, b, c, d] = dials;
    let front = Pair::new(SealedPanel::new(a)?, SealedPanel::new(b)?);
    let back = Pair::new(SealedPanel::new(c)?, SealedPanel::new(d)?);
    let (trial, _, _) = try_pair(front, back);
    Some(trial)
}

// What a trial came to, and where there was none, why.
fn print_trial(rt: &impl Print, name: &str, trial: Option<Trial>, none: &str) -> io::Result<()> {
    let Some(Trial { checked, extent }) = trial else {
        return println!(rt; "  {name}: {none}");
    };
    let Extent { dials, full_scale } = extent;
    match checked {
        Ok(()) => println!(rt; "  {name}: dials {dials}, full scale {full_scale} Wh"),
        Err(fault) => {
            println!(rt; "  {name}: {fault}; made, dials {dials}, full scale {full_scale} Wh")
        }
    }
}

// The answer of a dial of two digits beside a pair of the same dials.
fn try_numbers(numbers: &[u64]) -> Result<(u64, (u64, u64)), RegisterFault> {
    let dial = Dial::new(2, 1)?;
    let back = Pair::new(dial, dial);
    let pair = Pair::new(dial, back);
    pair.take(numbers)
}

fn print_numbers(rt: &impl Print, numbers: &[u64]) -> io::Result<()> {
    match try_numbers(numbers) {
        Ok((a, (b, c))) => println!(rt; "  three dials take {numbers:?}: kept as {a}, {b} and {c}"),
        Err(fault) => println!(rt; "  three dials take {numbers:?}: {fault}"),
    }
}

// A pair that was made though its check refuses it.
fn try_beyond(numbers: &[u64]) -> Option<Result<(u64, u64), RegisterFault>> {
    let pair = Pair::new(SealedPanel::new(64)?, SealedPanel::new(1)?);
    Some(pair.take(numbers))
}

fn print_beyond(rt: &impl Print, numbers: &[u64]) -> io::Result<()> {
    match try_beyond(numbers) {
        Some(Err(fault)) => println!(rt; "  beyond the limits, {numbers:?}: {fault}"),
        Some(Ok(_)) => println!(rt; "  beyond the limits, {numbers:?}: taken"),
        None => println!(rt; "  {NO_PANEL}"),
    }
}

pub fn print_all(rt: &impl Print) -> io::Result<()> {
    let trial = try_panels([16, 16, 16, 16]);
    print_trial(rt, "64 dials in four panels", trial, NO_PANEL)?;
    let trial = try_panels([16, 16, 16, 17]);
    print_trial(rt, "65 dials in four panels", trial, NO_PANEL)?;
    let half = 500_000_000_000_000;
    let trial = try_counters(half, half);
    print_trial(rt, "10^15 Wh in two counters", trial, NO_COUNTER)?;
    let trial = try_counters(half, half + 1);
    print_trial(rt, "1 Wh more", trial, NO_COUNTER)?;
    print_numbers(rt, &[1, 2, 3])?;
    print_numbers(rt, &[1, 2])?;
    print_numbers(rt, &[1, 2, 3, 4])?;
    print_numbers(rt, &[1, 100, 100])?;
    print_numbers(rt, &[1, 2, 100])?;
    print_numbers(rt, &[100, 2, 100])?;
    print_beyond(rt, &[0])?;
    print_beyond(rt, &[0, 0])
}
