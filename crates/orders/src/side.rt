// The side of an order.
ghost use Rattle.orders.specs.Codes.{Decodes, Encodes};
ghost use Rattle.orders.specs.Letters.{side_letter, sides};

use crate::code::UnknownCode;

#[derive(Clone, Copy, PartialEq, Eq, Debug)]
pub enum Side {
    Buy,
    Sell,
}

// The side's letter on the wire.
impl From<Side> for u8 {
    ghost from_gives = { Encodes side_letter sides };

    fn from(side: Side) -> u8 {
        match side {
            Side::Buy => b'B',
            Side::Sell => b'S',
        }
    }
}

// The side that a letter names. A match of its own: see `code`.
impl TryFrom<u8> for Side {
    type Error = UnknownCode;

    ghost try_from_gives = { Decodes side_letter sides };

    fn try_from(letter: u8) -> Result<Side, UnknownCode> {
        match letter {
            b'B' => Ok(Side::Buy),
            b'S' => Ok(Side::Sell),
            code => Err(UnknownCode { code }),
        }
    }
}
