// The time in force of an order: how long it stays live.
ghost use Rattle.orders.specs.Codes.{Decodes, Encodes};
ghost use Rattle.orders.specs.Letters.{time_letter, times};

use crate::code::UnknownCode;

#[derive(Clone, Copy, PartialEq, Eq, Debug)]
pub enum TimeInForce {
    Day,
    GoodTillCancelled,
    GoodTillDate,
}

// The time's letter on the wire.
impl From<TimeInForce> for u8 {
    ghost from_gives = { Encodes time_letter times };

    fn from(time: TimeInForce) -> u8 {
        match time {
            TimeInForce::Day => b'D',
            TimeInForce::GoodTillCancelled => b'C',
            TimeInForce::GoodTillDate => b'G',
        }
    }
}

// The time in force that a letter names. A match of its own: see `code`.
impl TryFrom<u8> for TimeInForce {
    type Error = UnknownCode;

    ghost try_from_gives = { Decodes time_letter times };

    fn try_from(letter: u8) -> Result<TimeInForce, UnknownCode> {
        match letter {
            b'D' => Ok(TimeInForce::Day),
            b'C' => Ok(TimeInForce::GoodTillCancelled),
            b'G' => Ok(TimeInForce::GoodTillDate),
            code => Err(UnknownCode { code }),
        }
    }
}
