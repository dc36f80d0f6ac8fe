// A slot of a chain.
ghost use Rattle.std.specs.Prelude.{◌≡◌, ℕ, ◌+◌, ◌<◌, length};
ghost use Rattle.chain.specs.Trails.{next};

use orders::order::Order;

#[derive(Clone, Copy)]
pub struct Link {
    pub order: Order,
    // The number of the slot that follows: no box, as the slots are the caller's.
    pub next: usize,
}

// Links each slot to the one that lies behind it.
pub(crate) fn link_up(at: &mut [Link])
    ensures { (k : ℕ) → k < length at.new → next at.new k ≡ k + 1 }
{
    for (i, link) in at.iter_mut().enumerate() {
        link.next = i + 1;
    }
}
