// Making a reader, and asking how far it has come.
ghost use Rattle.std.specs.Prelude.{◌≡◌};
ghost use Rattle.wire.specs.Reading.{bytes, position};

use super::Reader;

impl<'a> Reader<'a> {
    // A reader at the first of the bytes.
    pub fn new(input: &'a [u8]) -> Reader<'a>
        ensures bytes { bytes result ≡ input.now }
        ensures position { position result ≡ 0 }
    {
        Reader { input, at: 0 }
    }

    // How many bytes it has read.
    pub fn position(&self) -> usize
        ensures { result ≡ position self.now }
    {
        self.at
    }
}
