// The records of a stream. Each lends its part of the caller's bytes, behind its mark.
ghost use Rattle.std.specs.Prelude.{◌≡◌};
ghost use Rattle.wire.specs.Stream.{front, item_of, seen, size};

use orders::refusal::Reason;

#[derive(Clone, Copy, PartialEq, Eq, Debug)]
pub enum Record<'a> {
    Enter(&'a [u8; 24]),
    Cancel(&'a [u8; 12]),
    Turn,
}

impl Record<'_> {
    // How many bytes the record takes, its mark with them.
    pub fn size(self) -> usize
        ensures { result ≡ size (item_of self.entry) }
    {
        match self {
            Record::Enter(fields) => 2 + fields.len(),
            Record::Cancel(fields) => 2 + fields.len(),
            Record::Turn => 2,
        }
    }
}

// The record at the front of the bytes, none where there are no bytes, or why there is none.
pub fn first(bytes: &[u8]) -> Result<Option<Record<'_>>, Reason>
    ensures { seen result ≡ front bytes.now }
{
    let record = match bytes {
        [] => return Ok(None),
        [b'E', b'N', fields @ ..] => Record::Enter(fields.first_chunk().ok_or(Reason::CutShort)?),
        [b'C', b'X', fields @ ..] => Record::Cancel(fields.first_chunk().ok_or(Reason::CutShort)?),
        [b'T', b'U', ..] => Record::Turn,
        _ => return Err(Reason::UnknownMark),
    };
    Ok(Some(record))
}
