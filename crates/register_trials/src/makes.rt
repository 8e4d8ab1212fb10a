// Dials at the limits of their digits and weight.
use registers::dial::Dial;
use registers::fault::RegisterFault;
use registers::register::Register;
use registers::remote::RemoteDial;
use std::io;

// What these digits and this weight came to.
fn print_made<R: Register + Copy>(
    rt: &impl Print,
    kind: &str,
    digits: u8,
    weight: u32,
    made: Result<R, RegisterFault>,
) -> io::Result<()> {
    match made {
        Ok(register) => {
            let full_scale = register.full_scale();
            println!(rt; "  {kind}{digits} digits, {weight} Wh: full scale {full_scale} Wh")
        }
        Err(fault) => println!(rt; "  {kind}{digits} digits, {weight} Wh: {fault}"),
    }
}

pub fn print_all(rt: &impl Print) -> io::Result<()> {
    for (digits, weight) in [
        (0, 1),
        (1, 1),
        (8, 1_000_000),
        (9, 1),
        (1, 0),
        (1, 1_000_001),
        (9, 0),
    ] {
        print_made(rt, "", digits, weight, Dial::new(digits, weight))?;
        print_made(
            rt,
            "remote, ",
            digits,
            weight,
            RemoteDial::new(digits, weight),
        )?;
    }
    Ok(())
}
