// A walk along orders that lie one after another.
ghost use Rattle.std.specs.Slice.Iter.{iter_rest};

use orders::order::Order;
use shelves::walk::Walk;
use std::slice::Iter;

#[derive(Drop)]
pub(crate) struct Along<'a> {
    pub(crate) orders: Iter<'a, Order>,
}

impl Walk for Along<'_> {
    ghost ahead = { λ w. iter_rest w.orders };

    fn left(&self) -> usize {
        self.orders.len()
    }

    fn step(&mut self) -> Option<Order> {
        self.orders.next().copied()
    }
}
