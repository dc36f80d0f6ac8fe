// The fields of an entry and of a cancel, from the bytes behind the mark.
ghost use Rattle.std.specs.Prelude.{◌≡◌, ◌+◌, ◌≤◌, drop, length, take};
ghost use Rattle.wire.specs.Fields.{cancel_of, entry_of};

use orders::entry::{Cancel, Entry};

// The fields of an entry.
pub fn entry(bytes: &[u8; 24]) -> Entry
    ensures { result ≡ entry_of bytes.now }
{
    Entry {
        member: u32::from_be_bytes(bytes_at(bytes, 0)),
        side: bytes[4],
        price: u32::from_be_bytes(bytes_at(bytes, 5)),
        quantity: u32::from_be_bytes(bytes_at(bytes, 9)),
        kind: bytes[13],
        minimum: u32::from_be_bytes(bytes_at(bytes, 14)),
        time: bytes[18],
        designation: bytes[19],
        date: u32::from_be_bytes(bytes_at(bytes, 20)),
    }
}

// The fields of a cancel.
pub fn cancel(bytes: &[u8; 12]) -> Cancel
    ensures { result ≡ cancel_of bytes.now }
{
    Cancel {
        member: u32::from_be_bytes(bytes_at(bytes, 0)),
        serial: u64::from_be_bytes(bytes_at(bytes, 4)),
    }
}

// The N bytes at a place.
fn bytes_at<const N: usize>(bytes: &[u8], at: usize) -> [u8; N]
    requires { at + N ≤ length bytes.now }
    ensures { result ≡ take N (drop at bytes.now) }
{
    *bytes[at..].first_chunk().unwrap()
}
