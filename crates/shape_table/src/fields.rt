// The header and the entries of a table, taken out of its bytes.
ghost use Rattle.std.specs.Prelude.{◌≡◌, ◌+◌, ◌≤◌, length};
ghost use Rattle.std.specs.Result.{result_err};
ghost use Rattle.shape_table.specs.Layout.{u16_at, u32_at, header_of, entry_in, areas_placed, header_fault, entry_in_range};

use load_shapes::day::{CategoryDay, may_have_periods};
use load_shapes::fault::SourceFault;

// The number in two bytes, the low byte first.
#[tactic(auto, unfolding(crate::specs::Layout::u16_at))]
fn u16_at(bytes: &[u8], at: usize) -> u16
    requires { at + 2 ≤ length bytes.now }
    ensures { result ≡ u16_at bytes.now at }
{
    u16::from_le_bytes([bytes[at], bytes[at + 1]])
}

// The number in four bytes, the low byte first. It stays beside the last: `from_le_bytes` belongs to each type of number.
// The kit's byteorder has a trait for it, and would be a crate below the core to save neither function.
#[tactic(auto, unfolding(crate::specs::Layout::u16_at, crate::specs::Layout::u32_at))]
fn u32_at(bytes: &[u8], at: usize) -> u32
    requires { at + 4 ≤ length bytes.now }
    ensures { result ≡ u32_at bytes.now at }
{
    u32::from_le_bytes([bytes[at], bytes[at + 1], bytes[at + 2], bytes[at + 3]])
}

// The sixteen bytes that a table begins with.
#[derive(Clone, Copy)]
pub(crate) struct Header {
    pub periods: u16,
    pub entries: u16,
    pub rows: u16,
    pub zero: u16,
    pub index_offset: u32,
    pub row_offset: u32,
}

impl From<[u8; 16]> for Header {
    ghost from_gives = { λ bytes result. result ≡ header_of bytes };

    fn from(bytes: [u8; 16]) -> Header {
        Header {
            periods: u16_at(&bytes, 0),
            entries: u16_at(&bytes, 2),
            rows: u16_at(&bytes, 4),
            zero: u16_at(&bytes, 6),
            index_offset: u32_at(&bytes, 8),
            row_offset: u32_at(&bytes, 12),
        }
    }
}

impl Header {
    // Whether the index starts at 16 or later, the rows at its end or later, and both lie within so many bytes.
    fn places_areas(self, len: usize) -> bool
        ensures { result ≡ areas_placed self len }
    {
        // `as`: std has no `From` of a u32 to a usize, and `try_from` would have to be unwrapped.
        let index_offset = self.index_offset as usize;
        let row_offset = self.row_offset as usize;
        let weights = usize::from(self.rows) * usize::from(self.periods);
        16 <= index_offset
            && index_offset + 8 * usize::from(self.entries) <= row_offset
            && row_offset + 2 * weights <= len
    }

    // Why this is not the header of a table of so many bytes: the first fault that fits.
    pub(crate) fn check(self, len: usize) -> Result<(), SourceFault>
        ensures { result_err result ≡ header_fault self len }
    {
        if !may_have_periods(usize::from(self.periods)) {
            return Err(SourceFault::Periods);
        }
        if self.zero != 0 {
            return Err(SourceFault::ZeroField);
        }
        if self.places_areas(len) {
            Ok(())
        } else {
            Err(SourceFault::Misplaced)
        }
    }
}

// An entry of the index.
#[derive(Clone, Copy)]
pub(crate) struct IndexEntry {
    pub at: CategoryDay,
    pub zero: u8,
    pub count: u16,
    pub row: u16,
}

impl From<[u8; 8]> for IndexEntry {
    ghost from_gives = { λ bytes result. result ≡ entry_in bytes 0 };

    fn from(bytes: [u8; 8]) -> IndexEntry {
        let [category, zero, ..] = bytes;
        let day = u16_at(&bytes, 2);
        IndexEntry {
            at: CategoryDay {
                category: usize::from(category),
                day: usize::from(day),
            },
            zero,
            count: u16_at(&bytes, 4),
            row: u16_at(&bytes, 6),
        }
    }
}

impl IndexEntry {
    // Whether the category, the zero, the day and the row, of so many rows, are in range.
    pub(crate) fn is_in_range(self, rows: u16) -> bool
        ensures { result ≡ entry_in_range rows self }
    {
        self.at.is_within_bounds() && self.zero == 0 && self.row < rows
    }
}

// The weight in two bytes.
pub(crate) fn weight_in(bytes: [u8; 2]) -> u16
    ensures { result ≡ u16_at bytes 0 }
{
    u16_at(&bytes, 0)
}
