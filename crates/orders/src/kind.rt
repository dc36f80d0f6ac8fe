// The kind of an order: which sizes it may trade in.
ghost use Rattle.orders.specs.Codes.{Decodes, Encodes};
ghost use Rattle.orders.specs.Letters.{kind_letter, kinds};

use crate::code::UnknownCode;

#[derive(Clone, Copy, PartialEq, Eq, Debug)]
pub enum Kind {
    // A plain limit order: free of any condition on size.
    Limit,
    AllOrNone,
    MinimumQuantity,
    FillOrKill,
}

// The kind's letter on the wire.
impl From<Kind> for u8 {
    ghost from_gives = { Encodes kind_letter kinds };

    fn from(kind: Kind) -> u8 {
        match kind {
            Kind::Limit => b'L',
            Kind::AllOrNone => b'A',
            Kind::MinimumQuantity => b'M',
            Kind::FillOrKill => b'F',
        }
    }
}

// The kind that a letter names. A match of its own: see `code`.
impl TryFrom<u8> for Kind {
    type Error = UnknownCode;

    ghost try_from_gives = { Decodes kind_letter kinds };

    fn try_from(letter: u8) -> Result<Kind, UnknownCode> {
        match letter {
            b'L' => Ok(Kind::Limit),
            b'A' => Ok(Kind::AllOrNone),
            b'M' => Ok(Kind::MinimumQuantity),
            b'F' => Ok(Kind::FillOrKill),
            code => Err(UnknownCode { code }),
        }
    }
}
