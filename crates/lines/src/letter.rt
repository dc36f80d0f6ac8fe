// A letter of the wire, as a byte that may be anything.
ghost use Rattle.std.specs.Prelude.{Some};
ghost use Rattle.lines.specs.Text.{letter_text};

use std::fmt;

// A byte shown as its character if it is printable ASCII, else by its two hexadecimal digits.
#[derive(Clone, Copy)]
pub struct Letter(pub u8);

impl fmt::Display for Letter {
    ghost output = { λ l. Some (letter_text l.0) };

    fn fmt<W: fmt::Write>(&self, f: &mut fmt::Formatter<W>) -> fmt::Result {
        match self.0 {
            byte @ b' '..=b'~' => write!(f, "{}", char::from(byte)),
            byte => write!(f, "\\x{byte:02x}"),
        }
    }
}
