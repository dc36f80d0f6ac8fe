// The slots of a row: orders lie in the first ones, one after another. Those behind may hold anything.
ghost use Rattle.std.specs.Prelude.{◌≡◌, ◌+◌, ◌-◌, ◌<◌, ◌≤◌, length};

use crate::along::Along;
use orders::order::Order;
use orders::terms::Terms;
use shelves::rank::Rank;
use shelves::shelf::PutRefusal;
use shelves::slots::{Slots, Vacant, renew};
use shelves::walk;

// A slice with a length beside it, since a shelf has no heap: its slots are the caller's.
#[derive(Drop)]
pub struct Packed<'a> {
    at: &'a mut [Order],
    used: usize,
    ghost fits: { used ≤ length at.now },
}

impl Packed<'_> {
    ghost use Rattle.row.specs.Packed.{closed, front, opened, room};
    ghost use Rattle.shelves.specs.Lists.{rewritten};
    ghost use Rattle.std.specs.Slice.Iter.{iter_rest};

    fn orders(&self) -> &[Order]
        ensures { result.now ≡ front self.now }
    {
        &self.at[..self.used]
    }

    // A walk along the orders.
    fn walk(&self) -> Along<'_>
        ensures { iter_rest result.orders ≡ front self.now }
    {
        Along {
            orders: self.orders().iter(),
        }
    }

    // Moves what stands from `place` on one slot up, and writes `new` there.
    fn open(&mut self, place: usize, new: Order)
        requires place { place ≤ self.old.used }
        requires free { self.old.used < room self.old }
        ensures slots { self.new.at.now ≡ opened self.old place new }
        ensures used { self.new.used ≡ self.old.used + 1 }
    {
        self.at.copy_within(place..self.used, place + 1);
        self.at[place] = new;
        self.used += 1;
    }

    // Moves what stands behind `place` one slot down.
    fn close(&mut self, place: usize)
        requires { place < self.old.used }
        ensures slots { self.new.at.now ≡ closed self.old place }
        ensures used { self.new.used ≡ self.old.used - 1 }
    {
        self.at.copy_within(place + 1..self.used, place);
        self.used -= 1;
    }

    // Gives the order in the slot `place` a new balance and new terms.
    fn renew(&mut self, place: usize, balance: u32, terms: Terms)
        requires { place < room self.old }
        ensures slots { self.new.at.now ≡ rewritten self.old.at.now place balance terms }
        ensures used { self.new.used ≡ self.old.used }
    {
        // Lent first: an element beside a ghost field is not lent by itself.
        let at = &mut *self.at;
        renew(&mut at[place], balance, terms);
    }
}

impl<'a> Vacant<'a, Order> for Packed<'a> {
    ghost use Rattle.row.specs.Packed.{front, room};

    fn vacant(at: &'a mut [Order]) -> Packed<'a> {
        Packed { at, used: 0 }
    }
}

impl Slots for Packed<'_> {
    ghost use Rattle.row.specs.Packed.{front, front_within, room};

    ghost orders = { front };

    ghost room = { room };

    ghost fits = { λ s. front_within s.at.now s.used };

    fn count(&self) -> usize {
        self.orders().len()
    }

    fn room(&self) -> usize {
        self.at.len()
    }

    fn get(&self, place: usize) -> Option<Order> {
        self.orders().get(place).copied()
    }

    fn find(&self, serial: u64) -> Option<usize> {
        walk::find(&mut self.walk(), serial)
    }

    fn place<R: Rank>(&self, new: &Order) -> usize {
        walk::place::<R, Along>(&mut self.walk(), new)
    }

    fn insert(&mut self, place: usize, new: Order) -> Result<(), PutRefusal> {
        if self.count() >= self.room() {
            return Err(PutRefusal::Full);
        }
        self.open(place.min(self.used), new);
        Ok(())
    }

    fn remove(&mut self, place: usize) -> Option<Order> {
        let removed = self.get(place)?;
        self.close(place);
        Some(removed)
    }

    fn write(&mut self, place: usize, balance: u32, terms: Terms) -> Option<Order> {
        let written = self.get(place)?;
        self.renew(place, balance, terms);
        Some(written)
    }
}
