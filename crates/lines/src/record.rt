// The line of a record, with its fields in clear.
ghost use Rattle.lines.specs.Text.{item_text};
ghost use Rattle.std.specs.Prelude.{Some};
ghost use Rattle.wire.specs.Stream.{item_of};

use crate::letter::Letter;
use crate::price::Price;
use orders::entry::{Cancel, Entry};
use std::fmt;
use wire::fields;
use wire::record::Record;

// A type of this crate, as `wire` prints nothing.
#[derive(Clone, Copy)]
pub struct RecordLine<'a>(pub Record<'a>);

impl fmt::Display for RecordLine<'_> {
    ghost output = { λ l. Some (item_text (item_of l.0)) };

    fn fmt<W: fmt::Write>(&self, f: &mut fmt::Formatter<W>) -> fmt::Result {
        match self.0 {
            Record::Enter(bytes) => {
                let Entry {
                    member,
                    side,
                    price,
                    quantity,
                    kind,
                    minimum,
                    time,
                    designation,
                    date,
                } = fields::entry(bytes);
                let (side, kind, time) = (Letter(side), Letter(kind), Letter(time));
                let price = Price(price);
                write!(
                    f,
                    "EN member {member}, side {side}, price {price}, quantity {quantity}, kind {kind}, \
                     minimum {minimum}, time {time}, designation {designation}, date {date}"
                )
            }
            Record::Cancel(bytes) => {
                let Cancel { member, serial } = fields::cancel(bytes);
                write!(f, "CX member {member}, serial {serial}")
            }
            Record::Turn => write!(f, "TU"),
        }
    }
}
