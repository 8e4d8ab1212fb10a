// What sources answer, within their bounds and beyond.
use load_shapes::bounded;
use load_shapes::day::CategoryDay;
use load_shapes::even::EvenSource;
use load_shapes::source::Source;
use std::io;

// A category's day, and a period of that day.
#[derive(Clone, Copy)]
pub struct Asked {
    pub at: CategoryDay,
    pub period: usize,
}

fn print_number(rt: &impl Print, name: &str, number: Option<u16>) -> io::Result<()> {
    match number {
        Some(number) => print!(rt; "{name} {number}"),
        None => print!(rt; "no {name}"),
    }
}

// The sum of a day's weights, asked for at once.
fn sum_of_day(source: &impl Source, at: CategoryDay) -> Option<u64> {
    let shape = bounded::shape(source, at)?;
    Some(shape.weights.iter().map(|weight| u64::from(*weight)).sum())
}

// What a source says of each period that is asked for.
pub fn print_answers(rt: &impl Print, source: &impl Source, asked: &[Asked]) -> io::Result<()> {
    for question in asked {
        let Asked { at, period } = *question;
        let CategoryDay { category, day } = at;
        print!(rt; "  category {category}, day {day}, period {period}: ")?;
        print_number(rt, "count", source.count(at))?;
        print!(rt; ", ")?;
        print_number(rt, "weight", bounded::weight(source, at, period))?;
        match sum_of_day(source, at) {
            Some(sum) => println!(rt; ", {sum} in the day")?,
            None => println!(rt; ", no shape")?,
        }
    }
    Ok(())
}

// The last category and day that a source may have.
pub const LAST_DAY: CategoryDay = CategoryDay {
    category: 63,
    day: 399,
};

// The first day, and the last, and what lies beyond the periods of 48, the categories and the days.
pub const EDGES: [Asked; 5] = [
    Asked {
        at: CategoryDay {
            category: 0,
            day: 0,
        },
        period: 0,
    },
    Asked {
        at: LAST_DAY,
        period: 47,
    },
    Asked {
        at: LAST_DAY,
        period: 48,
    },
    Asked {
        at: CategoryDay {
            category: 64,
            day: 399,
        },
        period: 47,
    },
    Asked {
        at: CategoryDay {
            category: 63,
            day: 400,
        },
        period: 47,
    },
];

pub fn print_even(rt: &impl Print) -> io::Result<()> {
    for periods in [0, 47, 48, 49, 95, 96, 97, usize::MAX] {
        match EvenSource::new(periods) {
            Ok(even) => {
                let told = bounded::periods(&even);
                println!(rt; "even source of {told} periods")?;
                print_answers(rt, &even, &EDGES)?;
            }
            Err(fault) => println!(rt; "even source of {periods} periods: {fault}")?,
        }
    }
    Ok(())
}
