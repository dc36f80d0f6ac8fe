// A live order: it rests on the bid or the offer shelf, or waits.
use crate::sessions::Sessions;
use crate::side::Side;
use crate::terms::Terms;
use crate::time::TimeInForce;

#[derive(Clone, Copy, PartialEq, Eq, Debug)]
pub struct Order {
    pub serial: u64,
    pub member: u32,
    pub side: Side,
    // In thousandths of one per cent of par.
    pub price: u32,
    // What is neither filled nor gone.
    pub balance: u32,
    pub terms: Terms,
    pub time: TimeInForce,
    pub sessions: Sessions,
    // The last day of a good-till-date order, else 0: the number that was sent, and no Option, which
    // would say a second time what the time says.
    pub date: u32,
}
