// Codes: the letters and the numbers that stand for cases. A letter is written where it is converted, since
// `b'B' as isize` at a case is no plainer. The way back to an enum is a match of its own and no generic
// search: that would need the cases of each in a list, which is as long.
ghost use Rattle.std.specs.Prelude.{Some};
ghost use Rattle.orders.specs.Codes.{unknown_text};

use std::error::Error;
use std::fmt;

// A letter or a number that stands for no case.
#[derive(Clone, Copy, PartialEq, Eq, Debug)]
pub struct UnknownCode {
    pub code: u8,
}

impl fmt::Display for UnknownCode {
    ghost output = { λ e. Some (unknown_text e) };

    fn fmt<W: fmt::Write>(&self, f: &mut fmt::Formatter<W>) -> fmt::Result {
        write!(f, "unknown code {}", self.code)
    }
}

impl Error for UnknownCode {}
