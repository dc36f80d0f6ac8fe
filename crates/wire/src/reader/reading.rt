// Reading the next record.
ghost use Rattle.std.specs.Prelude.{◌≡◌, drop};
ghost use Rattle.wire.specs.Reading.{bytes, position, position_after, read};
ghost use Rattle.wire.specs.Stream.{seen};

use super::Reader;
use crate::record::{Record, first};
use orders::refusal::Refusal;

impl<'a> Reader<'a> {
    // The next record, or none at the end. A refusal has the position as its place, and the reader
    // stays there.
    pub fn next(&mut self) -> Result<Option<Record<'a>>, Refusal>
        ensures answer { seen result ≡ read (bytes self.old) (position self.old) }
        ensures position { position self.new ≡ position_after (bytes self.old) (position self.old) }
        ensures bytes { bytes self.new ≡ bytes self.old }
    {
        let place = self.at;
        let record = first(self.rest()).map_err(|reason| Refusal { reason, place })?;
        if let Some(record) = record {
            self.at += record.size();
        }
        Ok(record)
    }

    // The bytes that it has not read.
    fn rest(&self) -> &'a [u8]
        ensures { result.now ≡ drop (position self.now) (bytes self.now) }
    {
        &self.input[self.at..]
    }
}
