// An odd edition: it keeps the laws in another way than the two texts.
ghost use Rattle.editions_tests.specs.Odd.{odd};
ghost use Rattle.editions_tests.specs.Keeping;
ghost use Rattle.std.proofs.Common.{true, false, rules};

use editions::cut::Cut;
use editions::edition::Edition;
use editions::sets::{KindSet, TimeSet};
use orders::kind::Kind;
use orders::terms::Terms;

pub struct Odd;

impl Edition for Odd {
    const WIDTH: u32 = 0;

    ghost WIDTH = { 0 };

    const KINDS: KindSet = KindSet {
        limit: false,
        all_or_none: true,
        minimum_quantity: true,
        fill_or_kill: false,
    };

    ghost KINDS = { record { limit = false; all_or_none = true; minimum_quantity = true; fill_or_kill = false } };

    const TIMES: TimeSet = TimeSet {
        day: false,
        good_till_cancelled: false,
        good_till_date: true,
    };

    ghost TIMES = { record { day = false; good_till_cancelled = false; good_till_date = true } };

    ghost text = { odd };

    ghost width = { Prim.search rules };

    ghost kinds = { Prim.search rules };

    ghost times = { Prim.search rules };

    ghost lawful = { Keeping.lawful };

    // L admits any fill at all, A half of the balance or more, M its minimum or more and, as F does,
    // the balance or more.
    fn admits(balance: u32, terms: Terms, fill: u32) -> bool {
        match terms.kind {
            Kind::Limit => true,
            Kind::AllOrNone => fill >= balance.div_ceil(2),
            Kind::MinimumQuantity => fill >= terms.minimum || fill >= balance,
            Kind::FillOrKill => fill >= balance,
        }
    }

    // The minimum of M doubles while what is left has room for it. Else, and of any other kind, what is
    // left is L, with the fill as a minimum that means nothing.
    fn after(balance: u32, terms: Terms, fill: u32) -> Terms {
        let left = balance.saturating_sub(fill);
        match terms.kind {
            Kind::MinimumQuantity if terms.minimum <= left / 2 => Terms {
                kind: Kind::MinimumQuantity,
                minimum: terms.minimum * 2,
            },
            _ => Terms {
                kind: Kind::Limit,
                minimum: fill,
            },
        }
    }

    // Halfway between the two prices, rounded down.
    fn low(cut: &Cut) -> u32 {
        cut.offers.last.midpoint(cut.bids.last)
    }

    fn high(cut: &Cut) -> u32 {
        cut.bids.last
    }

    // The best offer, whatever is bid.
    fn idle_price(cut: &Cut) -> Option<u32> {
        cut.offers.best.map(|offer| offer.price)
    }
}
