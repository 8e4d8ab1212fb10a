// Tries registers at their edges, and prints what each trial came to.
#![tactic(auto)]

mod figures;
mod makes;
mod pairs;
mod readings;

use std::io;

fn main(rt: HostRuntime) -> io::Result<()> {
    println!(rt; "Figures")?;
    figures::print_all(&rt)?;
    println!(rt; "Making dials")?;
    makes::print_all(&rt)?;
    println!(rt; "Taking readings")?;
    readings::print_all(&rt)?;
    println!(rt; "Pairs")?;
    pairs::print_all(&rt)
}
