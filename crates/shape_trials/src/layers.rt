// Layers over a table, over the even source, and over sources of one's own.
use crate::answers::{Asked, EDGES, LAST_DAY, print_answers};
use crate::tables;
use fitting_sources::profile::Profile;
use fitting_sources::two_rate::TwoRate;
use load_shapes::day::CategoryDay;
use load_shapes::de_minimis::DeMinimis;
use load_shapes::even::EvenSource;
use load_shapes::source::Source;
use load_shapes::substitute::Substitute;
use shape_table::table::ShapeTable;
use std::io;

// Days with an entry in the table, and one without.
const DAYS: [Asked; 4] = [
    Asked {
        at: CategoryDay {
            category: 3,
            day: 7,
        },
        period: 1,
    },
    Asked {
        at: CategoryDay {
            category: 3,
            day: 8,
        },
        period: 1,
    },
    Asked {
        at: CategoryDay {
            category: 3,
            day: 9,
        },
        period: 47,
    },
    Asked {
        at: LAST_DAY,
        period: 47,
    },
];

// One source and, where it has no shape, another, with what the check says of the two.
fn print_substitute<S: Source + Drop, T: Source + Drop>(
    rt: &impl Print,
    first: S,
    second: T,
) -> io::Result<()> {
    match Substitute::check(&first, &second) {
        Ok(()) => println!(rt; "substitute")?,
        Err(fault) => println!(rt; "substitute: {fault}; made all the same")?,
    }
    let both = Substitute::new(first, second);
    print_answers(rt, &both, &DAYS)
}

fn print_over_table(rt: &impl Print, table: ShapeTable) -> io::Result<()> {
    println!(rt; "table")?;
    print_answers(rt, &table, &DAYS)?;
    println!(rt; "table at its edges")?;
    print_answers(rt, &table, &EDGES)?;
    for threshold in [5, 6] {
        println!(rt; "de-minimis layer, threshold {threshold}")?;
        print_answers(rt, &DeMinimis::new(table, threshold), &DAYS)?;
    }
    for periods in [48, 96] {
        match EvenSource::new(periods) {
            Ok(even) => print_substitute(rt, DeMinimis::new(table, 6), even)?,
            Err(fault) => println!(rt; "{fault}")?,
        }
    }
    match EvenSource::new(96) {
        Ok(even) => print_substitute(rt, even, table),
        Err(fault) => println!(rt; "{fault}"),
    }
}

// A profile borrows its weights.
fn print_profile(rt: &impl Print, weights: &[u16]) -> io::Result<()> {
    let periods = weights.len();
    match Profile::check(weights) {
        Ok(()) => {
            println!(rt; "profile of {periods} periods")?;
            print_answers(rt, &Profile::new(12, weights), &DAYS)
        }
        Err(fault) => println!(rt; "profile of {periods} periods: {fault:?}"),
    }
}

// A source that can be neither copied nor let go comes back out of the layers that it went into.
fn print_given_back(rt: &impl Print, source: TwoRate) -> io::Result<()> {
    let layer = DeMinimis::new(source, 2);
    let both = Substitute::new(layer, ShapeTable::empty());
    let told = print_answers(rt, &both, &DAYS);
    let (layer, _) = both.into_parts();
    let source = layer.into_source();
    let printed = print_answers(rt, &source, &DAYS);
    let (night, day) = source.into_weights();
    told?;
    printed?;
    println!(rt; "given back: {night} at night, {day} by day")
}

pub fn print(rt: &(impl Print + AllocGlobal)) -> io::Result<()> {
    let bytes = tables::base(rt.alloc())?;
    let mut table = ShapeTable::empty();
    match table.open(&bytes) {
        Ok(()) => print_over_table(rt, table)?,
        Err(fault) => println!(rt; "{fault}")?,
    }
    let mut weights = [40; 96];
    print_profile(rt, &weights[0..47])?;
    print_profile(rt, &weights[0..48])?;
    weights[50] = 10_000;
    print_profile(rt, &weights)?;
    weights[51] = 10_001;
    print_profile(rt, &weights)?;
    for (night, day) in [(10_000, 10_001), (2, 9)] {
        match TwoRate::new(night, day) {
            Some(source) => print_given_back(rt, source)?,
            None => println!(rt; "two rates: a weight above 10,000")?,
        }
    }
    Ok(())
}
