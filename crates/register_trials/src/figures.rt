// Worked figures. Each contract says the figure, which follows from the contracts of the calls alone.
ghost use Rattle.std.specs.Prelude.{◌≡◌, Ok};

use registers::dial::Dial;
use registers::fault::RegisterFault;
use registers::pair::Pair;
use registers::register::Register;
use registers::remote::RemoteDial;
use std::io;

// Each figure stands whole, so that a reader can follow it; `over_zero` and `straight` differ in their numbers alone.

// Five digits and a weight of 1,000 Wh, from 99,990 over 0 to 15.
fn over_zero() -> Result<u64, RegisterFault>
    ensures { result ≡ Ok 25000 }
{
    let dial = Dial::new(5, 1_000)?;
    let from = dial.take(&[99_990])?;
    let to = dial.take(&[15])?;
    Ok(dial.advance(from, to))
}

// The same beside a dial of the same make that goes from 100 to 110.
fn side_by_side() -> Result<u64, RegisterFault>
    ensures { result ≡ Ok 35000 }
{
    let dial = Dial::new(5, 1_000)?;
    Pair::check(&dial, &dial)?;
    let pair = Pair::new(dial, dial);
    let from = pair.take(&[99_990, 100])?;
    let to = pair.take(&[15, 110])?;
    Ok(pair.advance(from, to))
}

// Five digits read from afar, with two more in front.
fn from_afar() -> Result<u64, RegisterFault>
    ensures { result ≡ Ok 34567 }
{
    let remote = RemoteDial::new(5, 1_000)?;
    remote.take(&[1_234_567])
}

// Two digits and a weight of 1 Wh, from 10 straight to 20.
fn straight() -> Result<u64, RegisterFault>
    ensures { result ≡ Ok 10 }
{
    let dial = Dial::new(2, 1)?;
    let from = dial.take(&[10])?;
    let to = dial.take(&[20])?;
    Ok(dial.advance(from, to))
}

// The same by way of 90.
fn roundabout() -> Result<u64, RegisterFault>
    ensures { result ≡ Ok 110 }
{
    let dial = Dial::new(2, 1)?;
    let from = dial.take(&[10])?;
    let by = dial.take(&[90])?;
    let to = dial.take(&[20])?;
    Ok(dial.advance(from, by) + dial.advance(by, to))
}

fn print_figure(rt: &impl Print, name: &str, figure: Result<u64, RegisterFault>) -> io::Result<()> {
    match figure {
        Ok(number) => println!(rt; "  {name}: {number}"),
        Err(fault) => println!(rt; "  {name}: {fault}"),
    }
}

pub fn print_all(rt: &impl Print) -> io::Result<()> {
    print_figure(rt, "99,990 over 0 to 15, weight 1,000 Wh", over_zero())?;
    print_figure(rt, "beside 100 to 110 of the same make", side_by_side())?;
    print_figure(rt, "1,234,567 on five remote digits", from_afar())?;
    print_figure(rt, "10 to 20 on two digits, weight 1 Wh", straight())?;
    print_figure(rt, "10 to 20 by way of 90", roundabout())
}
