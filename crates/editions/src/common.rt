// What both texts answer alike.
ghost use Rattle.std.specs.Prelude.{◌≡◌};
ghost use Rattle.editions.specs.Texts.{best_bid, idle_by, part};

use crate::cut::Cut;

// Whether a fill is from 1 to the balance.
pub fn is_part(balance: u32, fill: u32) -> bool
    ensures { result ≡ part balance fill }
{
    (1..=balance).contains(&fill)
}

// The best bid or, where there is none, the best offer.
pub fn best_bid_or_offer(cut: &Cut) -> Option<u32>
    ensures { result ≡ idle_by best_bid cut.now.bids.best cut.now.offers.best }
{
    cut.bids.best.or(cut.offers.best).map(|level| level.price)
}
