// An entry whose form was checked.
use orders::sessions::Sessions;
use orders::side::Side;
use orders::terms::Terms;
use orders::time::TimeInForce;

#[derive(Clone, Copy, PartialEq, Eq, Debug)]
pub struct CheckedEntry {
    pub member: u32,
    pub side: Side,
    // In thousandths of one per cent of par.
    pub price: u32,
    pub quantity: u32,
    pub terms: Terms,
    pub time: TimeInForce,
    // The sessions asked for, if any.
    pub designation: Option<Sessions>,
    // The last day of a good-till-date order, else 0: the number that was sent, and no Option, which
    // would say a second time what the time says.
    pub date: u32,
}
