// A shape table: load shapes, read in place from the bytes that hold them.
ghost use Rattle.std.specs.Prelude.{◌≡◌, false, is_some, None, MatchResult, OnOk};
ghost use Rattle.std.specs.Option.{option_map};
ghost use Rattle.std.specs.Result.{result_err};
ghost use Rattle.faults.specs.Listings.{refusal};
ghost use Rattle.load_shapes.specs.Faults.{listed};
ghost use Rattle.shape_table.specs.Layout.{Bytes, entry_of, table_fault, table_meaning};
ghost use Rattle.shape_table.specs.TableLaws.{table_lawful};
ghost use Rattle.shape_table.specs.InPlace.{shape_in};
ghost use Rattle.shape_table.specs.Told.{TellsItsEntries};

use crate::areas::Areas;
use crate::fields::{Header, IndexEntry, weight_in};
use crate::shape::ShapeInPlace;
use load_shapes::day::{CategoryDay, DayShape};
use load_shapes::fault::SourceFault;
use load_shapes::source::Source;

// The areas of bytes that were found to be a table.
#[derive(Clone, Copy)]
pub struct ShapeTable<'a> {
    areas: Areas<'a>,
    ghost octets: { Bytes areas.bytes.now },
    ghost checked: { is_some (table_fault areas.bytes.now) ≡ false },
}

// The header of a table of 48 periods with no entry and no row.
const EMPTY: [u8; 16] = [48, 0, 0, 0, 0, 0, 0, 0, 16, 0, 0, 0, 16, 0, 0, 0];

impl<'a> ShapeTable<'a> {
    // The built-in table, which has no shape for any day.
    pub fn empty() -> ShapeTable<'a>
        ensures periods { (⟦<ShapeTable<'a> as Source>⟧.meaning result).periods ≡ 48 }
        ensures shapes { (at : CategoryDay) → (⟦<ShapeTable<'a> as Source>⟧.meaning result).shape at ≡ None }
    {
        ShapeTable {
            areas: Areas {
                header: Header::from(EMPTY),
                bytes: &EMPTY,
            },
        }
    }

    // Puts the table that lies in these bytes into the place of this one. Where they hold none, this one stays.
    #[tactic(auto, using(crate::proofs::Search::tells_its_entries))]
    pub fn open(&mut self, bytes: &'a [u8]) -> Result<(), SourceFault>
        ensures fault { result_err result ≡ table_fault bytes.now }
        ensures refusal { refusal listed result ≡ option_map listed (table_fault bytes.now) }
        ensures meaning { OnOk result (⟦<ShapeTable<'a> as Source>⟧.meaning self.new ≡ table_meaning bytes.now) }
        ensures entries { OnOk result (TellsItsEntries bytes.now) }
        ensures place { MatchResult result (λ _. self.new.areas.bytes.now ≡ bytes.now) (λ _. self.new ≡ self.old) }
    {
        let areas = Areas::try_from(bytes)?;
        areas.check()?;
        self.areas = areas;
        Ok(())
    }

    // The place of the entry of a category's day, if there is one. Entries rise, so that halves of the index can be
    // left out.
    fn find_place(&self, at: CategoryDay) -> Option<usize>
        ensures { result ≡ entry_of self.now.areas.bytes.now at }
    {
        self.areas
            .index()
            .binary_search_by_key(&at, |entry| IndexEntry::from(*entry).at)
            .ok()
    }

    // The shape of a category's day, if it has one.
    fn find(&self, at: CategoryDay) -> Option<ShapeInPlace<'a>>
        ensures { option_map shape_in result ≡ (table_meaning self.now.areas.bytes.now).shape at }
    {
        let place = self.find_place(at)?;
        let IndexEntry { count, row, .. } = self.areas.entry(place);
        let row = self.areas.row(row);
        Some(ShapeInPlace { count, row })
    }
}

impl<'a> Source for ShapeTable<'a> {
    ghost meaning = { λ t. table_meaning t.areas.bytes.now };

    ghost lawful = { λ t. table_lawful t.areas.bytes.now t.octets t.checked };

    fn periods(&self) -> usize {
        usize::from(self.areas.header.periods)
    }

    fn count(&self, at: CategoryDay) -> Option<u16> {
        self.find(at).map(|shape| shape.count)
    }

    fn weight(&self, at: CategoryDay, period: usize) -> Option<u16> {
        self.find(at)?.weight(period)
    }

    // One search for the whole day.
    fn shape(&self, at: CategoryDay) -> Option<DayShape> {
        let ShapeInPlace { count, row } = self.find(at)?;
        // `array::from_fn` was tried: it asks at each of the 96 places whether the row has it, and takes twice as long.
        let mut weights = [0; 96];
        for (period, weight) in row.iter().enumerate() {
            weights[period] = weight_in(*weight);
        }
        Some(DayShape { count, weights })
    }
}
