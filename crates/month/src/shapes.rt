// The load shapes of one category: those of a table that rest on enough data, and else the even one.
use load_shapes::bounded;
use load_shapes::day::CategoryDay;
use load_shapes::de_minimis::DeMinimis;
use load_shapes::even::EvenSource;
use load_shapes::source::Source;
use load_shapes::substitute::Substitute;
use shape_table::table::ShapeTable;
use std::io;

const CATEGORY: usize = 10;

// The data count under which a shape is not used.
const DE_MINIMIS: u16 = 50;

// The shape of a day: its data count, and then its weights, those of twelve hours on a line.
fn print_day(rt: &impl Print, source: &impl Source, day: usize) -> io::Result<()> {
    let at = CategoryDay {
        category: CATEGORY,
        day,
    };
    let Some(shape) = source.shape(at) else {
        return println!(rt; "day {day:2}: no shape");
    };
    let count = shape.count;
    let periods = bounded::periods(source);
    print!(rt; "day {day:2}: count {count}")?;
    for half in shape.weights[..periods].chunks(periods / 2) {
        print!(rt; "\n   ")?;
        for weight in half {
            print!(rt; " {weight}")?;
        }
    }
    println!(rt; "")
}

fn print_days(rt: &impl Print, source: &impl Source) -> io::Result<()> {
    let periods = source.periods();
    println!(rt;
        "Load shapes of category {CATEGORY}, in days of {periods} periods, and even weights where a count is under {DE_MINIMIS}"
    )?;
    for day in [0, 7, 14, 21] {
        print_day(rt, source, day)?;
    }
    Ok(())
}

// The table through both layers.
fn print_layered(rt: &impl Print, table: ShapeTable, even: EvenSource) -> io::Result<()> {
    let enough = DeMinimis::new(table, DE_MINIMIS);
    match Substitute::check(&enough, &even) {
        Ok(()) => print_days(rt, &Substitute::new(enough, even)),
        Err(fault) => println!(rt; "no substitute: {fault}"),
    }
}

fn print_table(rt: &impl Print, table: ShapeTable) -> io::Result<()> {
    match EvenSource::new(table.periods()) {
        Ok(even) => print_layered(rt, table, even),
        Err(fault) => println!(rt; "no even source: {fault}"),
    }
}

// The shapes in the bytes of a table.
pub fn print(rt: &impl Print, bytes: &[u8]) -> io::Result<()> {
    let mut table = ShapeTable::empty();
    match table.open(bytes) {
        Ok(()) => print_table(rt, table),
        Err(fault) => println!(rt; "no table: {fault}"),
    }
}

// The shapes of the built-in table, which has none, so that each day is even.
pub fn print_built_in(rt: &impl Print) -> io::Result<()> {
    print_table(rt, ShapeTable::empty())
}
