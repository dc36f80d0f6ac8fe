// A shelf holds orders in rank order in a fixed number of places. That list and that number are all
// that it means.
ghost use Rattle.std.specs.Prelude.{◌≡◌, ℕ, ◌≤◌, true, List, length, nat_le, Some};
ghost use Rattle.orders.specs.declared.order.Order.{Order};
ghost use Rattle.std.specs.List.{slice_get, remove};
ghost use Rattle.shelves.specs.Lists.{distinct, place_of, rewritten};
ghost use Rattle.shelves.specs.Puts.{after_put, put_answer, put_check, put_refusal_text};

use crate::rank::Rank;
use orders::order::Order;
use orders::terms::Terms;
use std::error::Error;
use std::fmt;

// Why a shelf does not take an order.
#[derive(Clone, Copy, PartialEq, Eq, Debug)]
pub enum PutRefusal {
    // Every place is used.
    Full,
    // An order with the serial is there.
    SerialHeld,
}

impl fmt::Display for PutRefusal {
    ghost output = { λ r. Some (put_refusal_text r) };

    fn fmt<W: fmt::Write>(&self, f: &mut fmt::Formatter<W>) -> fmt::Result {
        match self {
            PutRefusal::Full => write!(f, "every place is used"),
            PutRefusal::SerialHeld => write!(f, "the serial is there"),
        }
    }
}

impl Error for PutRefusal {}

pub trait Shelf<R: Rank> {
    // The orders, by place.
    ghost orders: { Self → List Order };

    // The number of places. Each change says that it stays: an invariant would speak of one value alone.
    ghost room: { Self → ℕ };

    // No two orders have one serial.
    ghost apart: { (s : Self) → distinct (orders s) ≡ true };

    // There are at most as many orders as places.
    ghost within: { (s : Self) → length (orders s) ≤ room s };

    fn count(&self) -> usize
        ensures { result ≡ length (orders self.now) };

    fn places(&self) -> usize
        ensures { result ≡ room self.now };

    // The order at a place, from 0.
    fn show(&self, place: usize) -> Option<Order>
        ensures { result ≡ slice_get (orders self.now) place };

    // The place of the order with this serial.
    fn find(&self, serial: u64) -> Option<usize>
        ensures { result ≡ place_of serial (orders self.now) };

    // Puts an order at its rank's place.
    fn put(&mut self, new: Order) -> Result<(), PutRefusal>
        ensures answer { result ≡ put_answer (room self.old) new.serial (orders self.old) }
        ensures orders { orders self.new ≡ after_put R.Rank.before result new (orders self.old) }
        ensures room { room self.new ≡ room self.old };

    // Takes out the order at a place.
    fn take(&mut self, place: usize) -> Option<Order>
        ensures answer { result ≡ slice_get (orders self.old) place }
        ensures orders { orders self.new ≡ remove (orders self.old) place }
        ensures room { room self.new ≡ room self.old };

    // Gives the order at a place a new balance and new terms, and answers with the order as it was.
    fn write(&mut self, place: usize, balance: u32, terms: Terms) -> Option<Order>
        ensures answer { result ≡ slice_get (orders self.old) place }
        ensures orders { orders self.new ≡ rewritten (orders self.old) place balance terms }
        ensures room { room self.new ≡ room self.old };
}

// Whether a shelf with so many orders and places, that holds the new order's serial or not, can take
// it.
pub fn check_put(count: usize, places: usize, held: bool) -> Result<(), PutRefusal>
    ensures { result ≡ put_check (nat_le places count) held }
{
    if count >= places {
        return Err(PutRefusal::Full);
    }
    if held {
        return Err(PutRefusal::SerialHeld);
    }
    Ok(())
}
