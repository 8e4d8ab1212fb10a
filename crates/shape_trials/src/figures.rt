// Figures that are printed, and are contracts as well.
ghost use Rattle.std.specs.Prelude.{◌≡◌, None, Ok};

use load_shapes::day::CategoryDay;
use load_shapes::fault::SourceFault;
use load_shapes::source::Source;
use shape_table::table::ShapeTable;
use std::io;

// Sixteen bytes: 48 periods, no entry, no row, both areas at 16.
const HEADER_ALONE: [u8; 16] = [48, 0, 0, 0, 0, 0, 0, 0, 16, 0, 0, 0, 16, 0, 0, 0];

// What the header alone says of any period of any category's day: nothing.
pub fn header_alone(at: CategoryDay, period: usize) -> Result<Option<u16>, SourceFault>
    ensures { result ≡ Ok None }
{
    let mut table = ShapeTable::empty();
    table.open(&HEADER_ALONE)?;
    Ok(table.weight(at, period))
}

pub fn print(rt: &impl Print) -> io::Result<()> {
    let at = CategoryDay {
        category: 3,
        day: 7,
    };
    let nothing = header_alone(at, 0) == Ok(None);
    println!(rt; "sixteen bytes say nothing: {nothing}")
}
