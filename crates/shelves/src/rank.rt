// Ranks: which of two orders with different serials comes first. Not by `Ord`, since three ranks order
// the same orders.
ghost use Rattle.std.specs.Prelude.{◌≡◌, Bool};
ghost use Rattle.shelves.specs.Ranks.{Ranking, Standing, bid_before, earlier, offer_before, standing, waiting_before};
ghost use Rattle.shelves.specs.RanksLemmas.{bid_ranking, offer_ranking, waiting_ranking};

use orders::order::Order;

pub trait Rank {
    // Which of two orders comes first, by what no fill changes of them.
    ghost before: { Standing → Standing → Bool };

    fn precedes(a: &Order, b: &Order) -> bool
        ensures { result ≡ before (standing a.now) (standing b.now) };

    ghost ranking: { Ranking before };
}

// Highest price first, then lowest serial.
pub struct Bid;

// Lowest price first, then lowest serial.
pub struct Offer;

// Lowest serial first.
pub struct Waiting;

// The same price, and a lower serial.
fn earlier(a: &Order, b: &Order) -> bool
    ensures { result ≡ earlier (standing a.now) (standing b.now) }
{
    a.price == b.price && a.serial < b.serial
}

impl Rank for Bid {
    ghost before = { bid_before };

    ghost ranking = { bid_ranking };

    fn precedes(a: &Order, b: &Order) -> bool {
        a.price > b.price || earlier(a, b)
    }
}

impl Rank for Offer {
    ghost before = { offer_before };

    ghost ranking = { offer_ranking };

    fn precedes(a: &Order, b: &Order) -> bool {
        a.price < b.price || earlier(a, b)
    }
}

impl Rank for Waiting {
    ghost before = { waiting_before };

    ghost ranking = { waiting_ranking };

    fn precedes(a: &Order, b: &Order) -> bool {
        a.serial < b.serial
    }
}
