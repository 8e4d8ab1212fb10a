// The table that the trials start from, and how it is altered.
use std::alloc::{AllocError, Global};

struct Entry {
    category: u8,
    day: u16,
    count: u16,
    row: u16,
}

// Two entries share row 0, and no entry names row 2.
const ENTRIES: [Entry; 3] = [
    Entry {
        category: 3,
        day: 7,
        count: 5,
        row: 0,
    },
    Entry {
        category: 3,
        day: 9,
        count: 65_535,
        row: 1,
    },
    Entry {
        category: 63,
        day: 399,
        count: 2,
        row: 0,
    },
];

// Where the rows start: four bytes after the index ends.
const ROW_OFFSET: u32 = 44;

fn push_u16(bytes: &mut Vec<u8>, number: u16) -> Result<(), AllocError> {
    bytes.extend_from_slice(&number.to_le_bytes())
}

fn push_header(bytes: &mut Vec<u8>) -> Result<(), AllocError> {
    for number in [48, 3, 3, 0] {
        push_u16(bytes, number)?;
    }
    for offset in [16, ROW_OFFSET] {
        bytes.extend_from_slice(&offset.to_le_bytes())?;
    }
    Ok(())
}

fn push_index(bytes: &mut Vec<u8>) -> Result<(), AllocError> {
    for entry in &ENTRIES {
        bytes.extend_from_slice(&[entry.category, 0])?;
        for number in [entry.day, entry.count, entry.row] {
            push_u16(bytes, number)?;
        }
    }
    bytes.extend_from_slice(&[0; 4])
}

// Row 0 weighs 100 at midnight and one more at each period, row 1 weighs 10,000 throughout, row 2 nothing.
fn push_rows(bytes: &mut Vec<u8>) -> Result<(), AllocError> {
    for period in 0..48u16 {
        push_u16(bytes, 100 + period)?;
    }
    for weight in [10_000, 0] {
        for _ in 0..48 {
            push_u16(bytes, weight)?;
        }
    }
    Ok(())
}

// 332 bytes: the header, the index at 16, and the rows at 44.
pub fn base(heap: Global) -> Result<Vec<u8>, AllocError> {
    let mut bytes = Vec::new(heap);
    push_header(&mut bytes)?;
    push_index(&mut bytes)?;
    push_rows(&mut bytes)?;
    Ok(bytes)
}

// A place in the bytes of a table, and the byte that is put there.
#[derive(Clone, Copy)]
pub struct Patch(pub usize, pub u8);

// The bytes with some of them replaced.
pub fn patched(heap: Global, bytes: &[u8], patches: &[Patch]) -> Result<Vec<u8>, AllocError> {
    let mut copy = bytes.to_vec(heap)?;
    for patch in patches {
        let Patch(at, byte) = *patch;
        if let Some(place) = copy.get_mut(at) {
            *place = byte;
        }
    }
    Ok(copy)
}
