// What the board reports of each event, in the order of events.
use crate::cause::Cause;

#[derive(Clone, Copy, PartialEq, Eq, Debug)]
pub enum Report {
    Fill(Fill),
    Leaving(Leaving),
}

// A trade between two orders.
#[derive(Clone, Copy, PartialEq, Eq, Debug)]
pub struct Fill {
    // The serial of the buying order.
    pub buyer: u64,
    // The serial of the selling order.
    pub seller: u64,
    pub price: u32,
    pub quantity: u32,
}

// An order that left with a balance unfilled.
#[derive(Clone, Copy, PartialEq, Eq, Debug)]
pub struct Leaving {
    pub serial: u64,
    pub quantity: u32,
    pub cause: Cause,
}
