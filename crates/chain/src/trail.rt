// A walk along the orders of linked slots.
#![tactic(auto, using(crate::proofs::Places::places))]

ghost use Rattle.chain.specs.Trails.{Inside};

use crate::link::Link;
use orders::order::Order;
use shelves::walk::Walk;

// How many orders are ahead and the number of the first one's slot, and no reference, since slots are linked
// by number and the last order's link leads on.
#[derive(Drop)]
pub(crate) struct Trail<'a> {
    pub(crate) links: &'a [Link],
    pub(crate) left: usize,
    pub(crate) at: usize,
    ghost inside: { Inside links.now left at },
}

impl Walk for Trail<'_> {
    ghost use Rattle.chain.specs.Chains.{ahead};

    ghost ahead = { ahead };

    fn left(&self) -> usize {
        self.left
    }

    fn step(&mut self) -> Option<Order> {
        if self.left == 0 {
            return None;
        }
        let link = self.links[self.at];
        self.left -= 1;
        self.at = link.next;
        Some(link.order)
    }
}
