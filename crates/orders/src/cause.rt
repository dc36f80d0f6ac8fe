// Why an order left the board other than by a fill.
ghost use Rattle.orders.specs.Codes.{Decodes, Encodes};
ghost use Rattle.orders.specs.Letters.{cause_letter, causes};

use crate::code::UnknownCode;

#[derive(Clone, Copy, PartialEq, Eq, Debug)]
pub enum Cause {
    // By its member.
    Cancelled,
    // Its last session or its last day is over.
    Ended,
    // A fill-or-kill order that could not trade at once.
    Killed,
}

// The cause's letter in a report.
impl From<Cause> for u8 {
    ghost from_gives = { Encodes cause_letter causes };

    fn from(cause: Cause) -> u8 {
        match cause {
            Cause::Cancelled => b'C',
            Cause::Ended => b'E',
            Cause::Killed => b'K',
        }
    }
}

// The cause that a letter names. A match of its own: see `code`.
impl TryFrom<u8> for Cause {
    type Error = UnknownCode;

    ghost try_from_gives = { Decodes cause_letter causes };

    fn try_from(letter: u8) -> Result<Cause, UnknownCode> {
        match letter {
            b'C' => Ok(Cause::Cancelled),
            b'E' => Ok(Cause::Ended),
            b'K' => Ok(Cause::Killed),
            code => Err(UnknownCode { code }),
        }
    }
}
