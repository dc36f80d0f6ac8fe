// Orders by place in a fixed number of slots. How they lie there is each arrangement's own.
ghost use Rattle.std.specs.Prelude.{◌≡◌, ℕ, ◌≤◌, false, [], List, length, nat_le};
ghost use Rattle.std.specs.List.{remove, slice_get};
ghost use Rattle.orders.specs.declared.order.Order.{Order};
ghost use Rattle.shelves.specs.Lists.{place_in, place_of, renewed, rewritten};
ghost use Rattle.shelves.specs.Puts.{after_insert, put_check};

use crate::rank::Rank;
use crate::shelf::PutRefusal;
use orders::order::Order;
use orders::terms::Terms;

pub trait Slots: Drop {
    // The orders, by place.
    ghost orders: { Self → List Order };

    // The number of slots. Each change says that it stays: an invariant would speak of one value alone.
    ghost room: { Self → ℕ };

    // There are at most as many orders as slots.
    ghost fits: { (s : Self) → length (orders s) ≤ room s };

    fn count(&self) -> usize
        ensures { result ≡ length (orders self.now) };

    fn room(&self) -> usize
        ensures { result ≡ room self.now };

    // The order at a place, from 0.
    fn get(&self, place: usize) -> Option<Order>
        ensures { result ≡ slice_get (orders self.now) place };

    // The place of the order with this serial.
    fn find(&self, serial: u64) -> Option<usize>
        ensures { result ≡ place_of serial (orders self.now) };

    // The place of a new order: behind all in front that come before it.
    fn place<R: Rank>(&self, new: &Order) -> usize
        ensures { result ≡ place_in R.Rank.before new.now (orders self.now) };

    // Puts an order at a place, or behind all where fewer orders are there, unless every slot is used.
    fn insert(&mut self, place: usize, new: Order) -> Result<(), PutRefusal>
        ensures answer { result ≡ put_check (nat_le (room self.old) (length (orders self.old))) false }
        ensures orders { orders self.new ≡ after_insert result place new (orders self.old) }
        ensures room { room self.new ≡ room self.old };

    // Takes out the order at a place.
    fn remove(&mut self, place: usize) -> Option<Order>
        ensures answer { result ≡ slice_get (orders self.old) place }
        ensures orders { orders self.new ≡ remove (orders self.old) place }
        ensures room { room self.new ≡ room self.old };

    // Gives the order at a place a new balance and new terms, and answers with the order as it was.
    fn write(&mut self, place: usize, balance: u32, terms: Terms) -> Option<Order>
        ensures answer { result ≡ slice_get (orders self.old) place }
        ensures orders { orders self.new ≡ rewritten (orders self.old) place balance terms }
        ensures room { room self.new ≡ room self.old };
}

// Slots that can be made over a slice of T.
pub trait Vacant<'a, T>: Slots {
    // All slots of the slice, without an order, whatever they hold.
    fn vacant(at: &'a mut [T]) -> Self
        ensures orders { Self.orders result ≡ [] }
        ensures room { Self.room result ≡ length at.old };
}

// Gives an order a new balance and new terms.
pub fn renew(order: &mut Order, balance: u32, terms: Terms)
    ensures { order.new ≡ renewed order.old balance terms }
{
    order.balance = balance;
    order.terms = terms;
}
