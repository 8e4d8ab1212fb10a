// Tries sources, layers and tables at their edges.
#![tactic(auto)]

mod answers;
mod figures;
mod layers;
mod opening;
mod tables;

use std::io;

fn main(rt: HostRuntime) -> io::Result<()> {
    figures::print(&rt)?;
    opening::print(&rt)?;
    answers::print_even(&rt)?;
    layers::print(&rt)
}
