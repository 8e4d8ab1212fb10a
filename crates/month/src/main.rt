// A month of one metering system: the energy between the numbers on its dials, and the load shapes by which a day's
// energy is spread over its periods. The program's argument is the path of a shape table's file; without one the built-in
// table serves.
#![tactic(auto)]

mod meter;
mod month;
mod progress;
mod shapes;

use std::{env, fs};

fn main(rt: HostRuntime) -> anyhow::Result<()> {
    let table = match env::args(&rt)?.nth(1) {
        Some(path) => Some(fs::read(&rt, path.as_str())?),
        None => None,
    };
    month::print(&rt, &meter::make()?)?;
    match table {
        Some(bytes) => shapes::print(&rt, &bytes)?,
        None => shapes::print_built_in(&rt)?,
    }
    Ok(())
}
