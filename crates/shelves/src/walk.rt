// A walk along orders, and the two searches that shelves make by one: for the place of a new order
// and for a serial. Each is written once, for every rank and every arrangement of slots.
ghost use Rattle.std.specs.Prelude.{◌≡◌, List, ◌++◌, length, is_some, nat_lt};
ghost use Rattle.orders.specs.declared.order.Order.{Order};
ghost use Rattle.std.specs.Option.{option_to_list};
ghost use Rattle.shelves.specs.Lists.{place_in, place_of};

use crate::rank::Rank;
use orders::order::Order;

pub trait Walk {
    // The orders that the walk has yet to pass.
    ghost ahead: { Self → List Order };

    // How many orders are ahead.
    fn left(&self) -> usize
        ensures { result ≡ length (ahead self.now) };

    // Passes the first order ahead, if there is one.
    fn step(&mut self) -> Option<Order>
        ensures ahead { ahead self.old ≡ option_to_list result ++ ahead self.new }
        ensures passed { is_some result ≡ nat_lt 0 (length (ahead self.old)) };
}

// The place of a new order among those ahead: behind all in front that come before it. No binary search, as
// a chain has none, and the rule is for any list, in rank order or not.
pub fn place<R: Rank, W: Walk>(walk: &mut W, new: &Order) -> usize
    ensures { result ≡ place_in R.Rank.before new.now (W.Walk.ahead walk.old) }
{
    let count = walk.left();
    while let Some(order) = walk.step() {
        if !R::precedes(&order, new) {
            return count - walk.left() - 1;
        }
    }
    count
}

// The place of the order with this serial among those ahead, if it is there.
pub fn find<W: Walk>(walk: &mut W, serial: u64) -> Option<usize>
    ensures { result ≡ place_of serial (W.Walk.ahead walk.old) }
{
    let count = walk.left();
    while let Some(order) = walk.step() {
        if order.serial == serial {
            return Some(count - walk.left() - 1);
        }
    }
    None
}
