// Lists of numbers that a register takes or refuses.
use fitting::counter::Counter;
use fitting::disc::CodeDisc;
use registers::dial::Dial;
use registers::fault::RegisterFault;
use registers::register::Register;
use registers::remote::RemoteDial;
use std::io;

fn print_taken<R: Register<Reading = u64>>(
    rt: &impl Print,
    name: &str,
    register: &R,
    numbers: &[u64],
) -> io::Result<()> {
    match register.take(numbers) {
        Ok(kept) => println!(rt; "  {name} takes {numbers:?}: kept as {kept}"),
        Err(fault) => println!(rt; "  {name} takes {numbers:?}: {fault}"),
    }
}

fn print_lists<R: Register<Reading = u64>>(
    rt: &impl Print,
    name: &str,
    register: &R,
    lists: &[&[u64]],
) -> io::Result<()> {
    for numbers in lists {
        print_taken(rt, name, register, numbers)?;
    }
    Ok(())
}

// The edge of a dial of three digits.
const AT_EDGE: [&[u64]; 6] = [&[], &[1, 2], &[0], &[999], &[1_000], &[u64::MAX]];

// The edge of what is taken from afar.
const AT_FAR_EDGE: [&[u64]; 6] = [
    &[],
    &[1, 2],
    &[1_000],
    &[999_999_999_999],
    &[1_000_000_000_000],
    &[u64::MAX],
];

// What a register keeps that no list gives has no advance.
fn print_advance<R: Register<Reading = u64>>(
    rt: &impl Print,
    name: &str,
    register: &R,
    from: u64,
    to: u64,
) -> io::Result<()> {
    let advance = register.advance(from, to);
    println!(rt; "  {name} from {from} to {to}: {advance} Wh")
}

// What a counter makes of its last number, and how far it is from there to 0.
fn try_counter(last: u64) -> Option<(Result<u64, RegisterFault>, u64)> {
    let counter = Counter::new(last)?;
    let taken = counter.take(&[last]);
    let advance = counter.advance(last, 0);
    let _ = counter.into_last();
    Some((taken, advance))
}

fn print_counter(rt: &impl Print, last: u64) -> io::Result<()> {
    match try_counter(last) {
        Some((Ok(kept), advance)) => {
            println!(rt; "  counter to {last}: keeps {kept}, and {advance} Wh on to 0")
        }
        Some((Err(fault), _)) => println!(rt; "  counter to {last}: {fault}"),
        None => println!(rt; "  no counter to {last}"),
    }
}

fn print_disc(rt: &impl Print, round: u64, marks: &[u64]) -> io::Result<()> {
    match CodeDisc::check(round, marks) {
        Ok(()) => {
            let disc = CodeDisc::new(round, marks);
            print_taken(rt, "disc", &disc, &[4])?;
            print_advance(rt, "disc", &disc, 3, 1)
        }
        Err(fault) => println!(rt; "  no disc of {round} Wh with marks {marks:?}: {fault:?}"),
    }
}

// Both dials of three digits.
fn make_dials() -> Result<(Dial, RemoteDial), RegisterFault> {
    Ok((Dial::new(3, 1)?, RemoteDial::new(3, 1)?))
}

fn print_dials(rt: &impl Print) -> io::Result<()> {
    match make_dials() {
        Ok((dial, remote)) => {
            print_lists(rt, "dial", &dial, &AT_EDGE)?;
            print_lists(rt, "remote dial", &remote, &AT_FAR_EDGE)?;
            print_advance(rt, "dial", &dial, 999, 0)?;
            print_advance(rt, "dial", &dial, 1_000, 0)?;
            print_advance(rt, "remote dial", &remote, 0, 1_000)
        }
        Err(fault) => println!(rt; "  {fault}"),
    }
}

pub fn print_all(rt: &impl Print) -> io::Result<()> {
    print_dials(rt)?;
    print_counter(rt, 1_000_000_000_000_000)?;
    print_counter(rt, 1_000_000_000_000_001)?;
    print_disc(rt, 900, &[0, 250, 500, 750])?;
    print_disc(rt, 0, &[])?;
    print_disc(rt, 900, &[0, 899, 900])
}
