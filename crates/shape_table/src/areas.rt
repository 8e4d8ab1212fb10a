// The areas of a table, read where they lie in its bytes: the header, the index, and the rows of weights. Nothing
// outside the bytes is read, whatever they hold.
ghost use Rattle.std.specs.Prelude.{◌≡◌, ◌+◌, ◌*◌, ◌<◌, ◌≤◌, IfOk, map, length, take, drop, nat_le};
ghost use Rattle.std.specs.List.{list_all};
ghost use Rattle.std.specs.Result.{result_err};
ghost use Rattle.std.specs.Simd.{first_chunks};
ghost use Rattle.shape_table.specs.Layout.{u16_at, header_of, entry_in, entry_at, index, row_weights, Placed, entry_right, row_right, first_wrong_entry, first_wrong_row, areas_fault, contents_fault};

use crate::fields::{Header, IndexEntry, weight_in};
use load_shapes::fault::SourceFault;
use load_shapes::source::MOST_WEIGHT;

// Bytes that begin with a header, and whose index and rows lie where they must.
#[derive(Clone, Copy)]
pub(crate) struct Areas<'a> {
    pub header: Header,
    pub bytes: &'a [u8],
    ghost own_header: { header ≡ header_of bytes.now },
    ghost placed: { Placed bytes.now },
}

// So many chunks of the bytes, from a place on.
fn chunks<const N: usize>(bytes: &[u8], start: usize, count: usize) -> &[[u8; N]]
    requires size { 0 < N }
    requires within { start + count * N ≤ length bytes.now }
    ensures chunks { result.now ≡ first_chunks N count (take (count * N) (drop start bytes.now)) }
    ensures count { length result.now ≡ count }
{
    bytes[start..start + count * N].as_chunks().0
}

// Whether no weight is above 10,000.
fn are_light(weights: &[[u8; 2]]) -> bool
    ensures { result ≡ list_all (λ weight. nat_le (u16_at weight 0) 10000) weights.now }
{
    weights
        .iter()
        .all(|weight| weight_in(*weight) <= MOST_WEIGHT)
}

impl<'a> TryFrom<&'a [u8]> for Areas<'a> {
    type Error = SourceFault;

    ghost try_from_gives = { λ bytes result. (result_err result ≡ areas_fault bytes.now) × IfOk result (λ areas. areas.bytes.now ≡ bytes.now) };

    fn try_from(bytes: &'a [u8]) -> Result<Areas<'a>, SourceFault> {
        let first: &[u8; 16] = bytes.first_chunk().ok_or(SourceFault::TooShort)?;
        let header = Header::from(*first);
        header.check(bytes.len())?;
        Ok(Areas { header, bytes })
    }
}

impl<'a> Areas<'a> {
    // The entries of the index, eight bytes each.
    #[tactic(auto, using(crate::proofs::Copies::index_read))]
    pub(crate) fn index(&self) -> &'a [[u8; 8]]
        ensures entries { map (λ entry. entry_in entry 0) result.now ≡ index self.now.bytes.now }
        ensures count { length result.now ≡ (header_of self.now.bytes.now).entries }
    {
        // `as`, here and below: std has no `From` of a u32 to a usize, and `try_from` would have to be unwrapped.
        let start = self.header.index_offset as usize;
        chunks(self.bytes, start, usize::from(self.header.entries))
    }

    // The weights of a row, two bytes each. The row is a plain number: a type for rows that the table has would be made and
    // used at this one call.
    #[tactic(auto, using(crate::proofs::Copies::row_read))]
    pub(crate) fn row(&self, row: u16) -> &'a [[u8; 2]]
        requires { row < (header_of self.now.bytes.now).rows }
        ensures { map (λ weight. u16_at weight 0) result.now ≡ row_weights self.now.bytes.now row }
    {
        let periods = usize::from(self.header.periods);
        let start = self.header.row_offset as usize + 2 * (usize::from(row) * periods);
        chunks(self.bytes, start, periods)
    }

    // The entry at a place of the index.
    #[tactic(auto, using(crate::proofs::Read::entry_read))]
    pub(crate) fn entry(&self, place: usize) -> IndexEntry
        requires { place < (header_of self.now.bytes.now).entries }
        ensures { result ≡ entry_at self.now.bytes.now place }
    {
        IndexEntry::from(self.index()[place])
    }

    // Whether an entry is in range and above the one before, if there is one.
    fn is_entry_right(&self, place: usize) -> bool
        requires { place < (header_of self.now.bytes.now).entries }
        ensures { result ≡ entry_right self.now.bytes.now place }
    {
        let entry = self.entry(place);
        entry.is_in_range(self.header.rows) && (place == 0 || self.entry(place - 1).at < entry.at)
    }

    // The first entry that is out of range, or not above the one before.
    #[tactic(auto, unfolding(crate::specs::Layout::first_wrong_entry))]
    fn find_wrong_entry(&self) -> Option<usize>
        ensures { result ≡ first_wrong_entry self.now.bytes.now }
    {
        (0..usize::from(self.header.entries)).find(|place| !self.is_entry_right(*place))
    }

    // Whether a row has no weight above 10,000.
    #[tactic(auto, using(crate::proofs::Read::row_light))]
    fn is_row_right(&self, row: u16) -> bool
        requires { row < (header_of self.now.bytes.now).rows }
        ensures { result ≡ row_right self.now.bytes.now row }
    {
        are_light(self.row(row))
    }

    // The first row with a weight above 10,000. All rows are looked at, whether an entry names them or not.
    #[tactic(auto, unfolding(crate::specs::Layout::first_wrong_row))]
    fn find_wrong_row(&self) -> Option<u16>
        ensures { result ≡ first_wrong_row self.now.bytes.now }
    {
        (0..self.header.rows).find(|row| !self.is_row_right(*row))
    }

    // Why the contents are no table's: the first entry that is not right, or else the first such row.
    pub(crate) fn check(&self) -> Result<(), SourceFault>
        ensures { result_err result ≡ contents_fault self.now.bytes.now }
    {
        if let Some(entry) = self.find_wrong_entry() {
            return Err(SourceFault::Entry { entry });
        }
        match self.find_wrong_row() {
            Some(row) => Err(SourceFault::Row {
                row: usize::from(row),
            }),
            None => Ok(()),
        }
    }
}
