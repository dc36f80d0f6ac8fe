// Why a call was refused: the reason, with its number and layer, and the place that it is about.
ghost use Rattle.std.specs.Prelude.{◌≡◌, Some};
ghost use Rattle.orders.specs.Codes.{Decodes, Encodes};
ghost use Rattle.orders.specs.Refusals.{direct, layer, layer_number, layers, reason_field, reason_number, reasons, refusal_text};

use crate::code::UnknownCode;
use std::error::Error;
use std::fmt;

// Which part of the engine checks: the reader of the wire, the form of an entry, or the board.
#[derive(Clone, Copy, PartialEq, Eq, Debug)]
pub enum Layer {
    Reader = 1,
    Form = 2,
    Board = 3,
}

#[derive(Clone, Copy, PartialEq, Eq, Debug)]
pub enum Reason {
    // Making: the reference price is outside 1 to 1,000,000.
    ReferenceOutOfRange = 1,
    // Making: the capacity is outside 1 to 4,096.
    CapacityOutOfRange = 2,
    // Making: a shelf is not empty, or has fewer places than the capacity.
    ShelfUnfit = 3,
    // Take: one byte is left, or the mark is unknown.
    UnknownMark = 4,
    // Take: the record is cut short.
    CutShort = 5,
    // The side is neither letter.
    UnknownSide = 6,
    // The price is outside 1 to 1,000,000.
    PriceOutOfRange = 7,
    // The quantity is outside 1 to 1,000,000.
    QuantityOutOfRange = 8,
    // The kind is not in the edition.
    KindNotAllowed = 9,
    // The minimum is 0 or above the quantity for M, or not 0 for others.
    MinimumNotAllowed = 10,
    // The time letter is not in the edition, or not D for F.
    TimeNotAllowed = 11,
    // The designation is above 7, or not 0 for C, G or F.
    DesignationNotAllowed = 12,
    // The date is not 0 without G.
    DateNotAllowed = 13,
    // Enter: the phase is Closed.
    MarketClosed = 14,
    // Enter: F in Queue.
    FillOrKillInQueue = 15,
    // Enter: a G date before today, or no session of the entry runs or is to come today.
    NoSessionAhead = 16,
    // Enter: a price too far beyond the best resting order of the other side.
    OutsideCollar = 17,
    // Enter: as many orders are live as the capacity.
    BoardFull = 18,
    // Enter: the next serial is the largest 64-bit number.
    SerialsExhausted = 19,
    // Cancel: no live order has the serial.
    NoSuchOrder = 20,
    // Cancel: the order is another member's.
    NotOwner = 21,
    // Turn: Closed on the largest day.
    DaysExhausted = 22,
    // Enter, cancel, turn: fewer report places than live orders plus one.
    ReportTooShort = 23,
}

#[derive(Clone, Copy, PartialEq, Eq, Debug)]
pub struct Refusal {
    pub reason: Reason,
    // Of a record, the offset of its first byte or of the faulty field's; of a direct call, the
    // faulty field's number or 0. A number and no enum, as it is printed as one.
    pub place: usize,
}

// The layer's number in a refusal.
impl From<Layer> for u8 {
    ghost from_gives = { Encodes layer_number layers };

    fn from(layer: Layer) -> u8 {
        layer as u8
    }
}

// The layer that a number names. A match of its own: see `code`.
impl TryFrom<u8> for Layer {
    type Error = UnknownCode;

    ghost try_from_gives = { Decodes layer_number layers };

    fn try_from(number: u8) -> Result<Layer, UnknownCode> {
        match number {
            1 => Ok(Layer::Reader),
            2 => Ok(Layer::Form),
            3 => Ok(Layer::Board),
            code => Err(UnknownCode { code }),
        }
    }
}

// The number of the reason, which no other reason has.
impl From<Reason> for u8 {
    ghost from_gives = { Encodes reason_number reasons };

    fn from(reason: Reason) -> u8 {
        reason as u8
    }
}

// The reason that a number names. A match of its own: see `code`.
impl TryFrom<u8> for Reason {
    type Error = UnknownCode;

    ghost try_from_gives = { Decodes reason_number reasons };

    fn try_from(number: u8) -> Result<Reason, UnknownCode> {
        match number {
            1 => Ok(Reason::ReferenceOutOfRange),
            2 => Ok(Reason::CapacityOutOfRange),
            3 => Ok(Reason::ShelfUnfit),
            4 => Ok(Reason::UnknownMark),
            5 => Ok(Reason::CutShort),
            6 => Ok(Reason::UnknownSide),
            7 => Ok(Reason::PriceOutOfRange),
            8 => Ok(Reason::QuantityOutOfRange),
            9 => Ok(Reason::KindNotAllowed),
            10 => Ok(Reason::MinimumNotAllowed),
            11 => Ok(Reason::TimeNotAllowed),
            12 => Ok(Reason::DesignationNotAllowed),
            13 => Ok(Reason::DateNotAllowed),
            14 => Ok(Reason::MarketClosed),
            15 => Ok(Reason::FillOrKillInQueue),
            16 => Ok(Reason::NoSessionAhead),
            17 => Ok(Reason::OutsideCollar),
            18 => Ok(Reason::BoardFull),
            19 => Ok(Reason::SerialsExhausted),
            20 => Ok(Reason::NoSuchOrder),
            21 => Ok(Reason::NotOwner),
            22 => Ok(Reason::DaysExhausted),
            23 => Ok(Reason::ReportTooShort),
            code => Err(UnknownCode { code }),
        }
    }
}

impl Reason {
    // The layer that checks for the reason.
    pub fn layer(self) -> Layer
        ensures { result ≡ layer self }
    {
        match self {
            Reason::UnknownMark | Reason::CutShort => Layer::Reader,
            Reason::UnknownSide
            | Reason::PriceOutOfRange
            | Reason::QuantityOutOfRange
            | Reason::KindNotAllowed
            | Reason::MinimumNotAllowed
            | Reason::TimeNotAllowed
            | Reason::DesignationNotAllowed
            | Reason::DateNotAllowed => Layer::Form,
            _ => Layer::Board,
        }
    }

    // The number of the entry's field that a check of form is about, the member being field 1; for
    // other reasons 0, which is then the place: no Option, as it would only be unwrapped to that 0.
    pub fn field(self) -> usize
        ensures { result ≡ reason_field self }
    {
        match self {
            Reason::UnknownSide => 2,
            Reason::PriceOutOfRange => 3,
            Reason::QuantityOutOfRange => 4,
            Reason::KindNotAllowed => 5,
            Reason::MinimumNotAllowed => 6,
            Reason::TimeNotAllowed => 7,
            Reason::DesignationNotAllowed => 8,
            Reason::DateNotAllowed => 9,
            _ => 0,
        }
    }
}

impl Refusal {
    // The refusal of a direct call, with the faulty field's number, or 0, as its place: see `field`.
    pub fn direct(reason: Reason) -> Refusal
        ensures { result ≡ direct reason }
    {
        Refusal {
            reason,
            place: reason.field(),
        }
    }
}

// Its number, its layer and its place.
impl fmt::Display for Refusal {
    ghost output = { λ r. Some (refusal_text r) };

    fn fmt<W: fmt::Write>(&self, f: &mut fmt::Formatter<W>) -> fmt::Result {
        let number = u8::from(self.reason);
        let layer = u8::from(self.reason.layer());
        let place = self.place;
        write!(f, "refused {number}, layer {layer}, place {place}")
    }
}

impl Error for Refusal {}
