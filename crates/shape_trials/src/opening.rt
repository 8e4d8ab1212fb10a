// Tables at the edge of each refusal.
use crate::answers::LAST_DAY;
use crate::tables;
use crate::tables::Patch;
use load_shapes::source::Source;
use shape_table::table::ShapeTable;
use std::io;

// The table that is built, with some of its bytes replaced.
struct Trial {
    name: &'static str,
    patches: &'static [Patch],
}

const TRIALS: [Trial; 37] = [
    Trial {
        name: "as built",
        patches: &[],
    },
    Trial {
        name: "rows right after the index",
        patches: &[Patch(12, 40)],
    },
    Trial {
        name: "47 periods",
        patches: &[Patch(0, 47)],
    },
    Trial {
        name: "49 periods",
        patches: &[Patch(0, 49)],
    },
    Trial {
        name: "95 periods",
        patches: &[Patch(0, 95)],
    },
    Trial {
        name: "97 periods",
        patches: &[Patch(0, 97)],
    },
    Trial {
        name: "96 periods in bytes for 48",
        patches: &[Patch(0, 96)],
    },
    Trial {
        name: "96 periods and one row",
        patches: &[
            Patch(0, 96),
            Patch(4, 1),
            Patch(38, 0),
            Patch(30, 0),
            Patch(22, 0),
        ],
    },
    Trial {
        name: "high byte of the periods set",
        patches: &[Patch(1, 1)],
    },
    Trial {
        name: "zero field of the header set",
        patches: &[Patch(7, 1)],
    },
    Trial {
        name: "47 periods and zero field set",
        patches: &[Patch(0, 47), Patch(7, 1)],
    },
    Trial {
        name: "zero field set and index at 15",
        patches: &[Patch(6, 1), Patch(8, 15)],
    },
    Trial {
        name: "index at 15",
        patches: &[Patch(8, 15)],
    },
    Trial {
        name: "index at 20, rows right after it",
        patches: &[Patch(8, 20)],
    },
    Trial {
        name: "index at 21, rows within it",
        patches: &[Patch(8, 21)],
    },
    Trial {
        name: "rows one byte into the index",
        patches: &[Patch(12, 39)],
    },
    Trial {
        name: "rows one byte past the end",
        patches: &[Patch(12, 45)],
    },
    Trial {
        name: "one row too many",
        patches: &[Patch(4, 4)],
    },
    Trial {
        name: "index near 2^32",
        patches: &[Patch(8, 255), Patch(9, 255), Patch(10, 255), Patch(11, 255)],
    },
    Trial {
        name: "rows near 2^32",
        patches: &[
            Patch(12, 255),
            Patch(13, 255),
            Patch(14, 255),
            Patch(15, 255),
        ],
    },
    Trial {
        name: "index and rows near 2^32",
        patches: &[
            Patch(8, 255),
            Patch(9, 255),
            Patch(10, 255),
            Patch(11, 255),
            Patch(12, 255),
            Patch(13, 255),
            Patch(14, 255),
            Patch(15, 255),
        ],
    },
    Trial {
        name: "65535 entries near 2^32",
        patches: &[
            Patch(2, 255),
            Patch(3, 255),
            Patch(8, 255),
            Patch(9, 255),
            Patch(10, 255),
            Patch(11, 255),
        ],
    },
    Trial {
        name: "65535 rows",
        patches: &[Patch(4, 255), Patch(5, 255)],
    },
    Trial {
        name: "misplaced, and an entry out of range",
        patches: &[Patch(12, 45), Patch(16, 64)],
    },
    Trial {
        name: "category 64",
        patches: &[Patch(32, 64)],
    },
    Trial {
        name: "zero field of entry 0 set",
        patches: &[Patch(17, 1)],
    },
    Trial {
        name: "day 400",
        patches: &[Patch(34, 144)],
    },
    Trial {
        name: "row 3",
        patches: &[Patch(30, 3)],
    },
    Trial {
        name: "entries 1 and 2 of one day",
        patches: &[Patch(32, 3), Patch(34, 9), Patch(35, 0)],
    },
    Trial {
        name: "entry 2 of an earlier category and a later day",
        patches: &[Patch(32, 2)],
    },
    Trial {
        name: "entry 2 of a later category and an earlier day",
        patches: &[Patch(34, 5), Patch(35, 0)],
    },
    Trial {
        name: "entry 1 of an earlier day",
        patches: &[Patch(26, 6)],
    },
    Trial {
        name: "entries 1 and 2 out of range",
        patches: &[Patch(24, 64), Patch(32, 64)],
    },
    Trial {
        name: "weight 10,001 in row 1",
        patches: &[Patch(234, 17), Patch(235, 39)],
    },
    Trial {
        name: "weight 10,001 in row 2, which no entry names",
        patches: &[Patch(236, 17), Patch(237, 39)],
    },
    Trial {
        name: "weight 65,535 in rows 0 and 2",
        patches: &[
            Patch(44, 255),
            Patch(45, 255),
            Patch(236, 255),
            Patch(237, 255),
        ],
    },
    Trial {
        name: "entry 2 out of range and weight 10,001 in row 0",
        patches: &[Patch(32, 64), Patch(44, 17), Patch(45, 39)],
    },
];

fn attempt(rt: &impl Print, name: &str, bytes: &[u8]) -> io::Result<()> {
    let mut table = ShapeTable::empty();
    match table.open(bytes) {
        Ok(()) => {
            let periods = table.periods();
            println!(rt; "{name}: opened, {periods} periods")
        }
        Err(fault) => println!(rt; "{name}: {fault}"),
    }
}

// Parts of the table, from its first byte on.
fn print_parts(rt: &impl Print, bytes: &[u8]) -> io::Result<()> {
    for len in [0, 15, 16, 331] {
        if let Some(part) = bytes.get(..len) {
            print!(rt; "{len} bytes of ")?;
            attempt(rt, "it", part)?;
        }
    }
    Ok(())
}

// What a table in its place says of a day, before and after a refused opening.
fn print_refused<'a>(rt: &impl Print, good: &'a [u8], bad: &'a [u8]) -> io::Result<()> {
    let mut table = ShapeTable::empty();
    for bytes in [bad, good, bad] {
        match table.open(bytes) {
            Ok(()) => print!(rt; "opened: ")?,
            Err(_) => print!(rt; "refused: ")?,
        }
        match table.weight(LAST_DAY, 47) {
            Some(weight) => println!(rt; "the last period of all weighs {weight}")?,
            None => println!(rt; "the last period of all has no weight")?,
        }
    }
    Ok(())
}

pub fn print(rt: &(impl Print + AllocGlobal)) -> io::Result<()> {
    let base = tables::base(rt.alloc())?;
    for trial in &TRIALS {
        let bytes = tables::patched(rt.alloc(), &base, trial.patches)?;
        attempt(rt, trial.name, &bytes)?;
    }
    print_parts(rt, &base)?;
    let bad = tables::patched(rt.alloc(), &base, &[Patch(0, 47)])?;
    if let Some(part) = bad.get(..15) {
        attempt(rt, "15 bytes, 47 periods", part)?;
    }
    print_refused(rt, &base, &bad)
}
