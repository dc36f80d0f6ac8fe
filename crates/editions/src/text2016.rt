// The text of 2016, for corporate boards.
ghost use Rattle.editions.specs.Texts.{text2016};
ghost use Rattle.editions.specs.Keeping.{lawful2016};
ghost use Rattle.std.proofs.Common.{true, rules};

use crate::common::{best_bid_or_offer, is_part};
use crate::cut::Cut;
use crate::edition::Edition;
use crate::sets::{KindSet, TimeSet};
use orders::kind::Kind;
use orders::terms::Terms;

pub struct Text2016;

impl Edition for Text2016 {
    const WIDTH: u32 = 1000;

    ghost WIDTH = { 1000 };

    const KINDS: KindSet = KindSet {
        limit: true,
        all_or_none: true,
        minimum_quantity: true,
        fill_or_kill: true,
    };

    ghost KINDS = { record { limit = true; all_or_none = true; minimum_quantity = true; fill_or_kill = true } };

    const TIMES: TimeSet = TimeSet {
        day: true,
        good_till_cancelled: true,
        good_till_date: true,
    };

    ghost TIMES = { record { day = true; good_till_cancelled = true; good_till_date = true } };

    ghost text = { text2016 };

    ghost width = { Prim.search rules };

    ghost kinds = { Prim.search rules };

    ghost times = { Prim.search rules };

    ghost lawful = { lawful2016 };

    fn admits(balance: u32, terms: Terms, fill: u32) -> bool {
        match terms.kind {
            Kind::Limit => is_part(balance, fill),
            Kind::AllOrNone | Kind::FillOrKill => fill == balance,
            Kind::MinimumQuantity => {
                fill == balance || (terms.minimum..=balance).contains(&fill)
            }
        }
    }

    // A minimum-quantity balance under its minimum turns plain.
    fn after(balance: u32, terms: Terms, fill: u32) -> Terms {
        match terms.kind {
            Kind::MinimumQuantity if balance.saturating_sub(fill) < terms.minimum => Terms {
                kind: Kind::Limit,
                minimum: 0,
            },
            _ => terms,
        }
    }

    fn low(cut: &Cut) -> u32 {
        let last = cut.offers.last;
        cut.bids.next.map_or(last, |next| next.max(last))
    }

    fn high(cut: &Cut) -> u32 {
        let last = cut.bids.last;
        cut.offers.next.map_or(last, |next| next.min(last))
    }

    fn idle_price(cut: &Cut) -> Option<u32> {
        match (cut.bids.best, cut.offers.best) {
            (Some(bid), Some(offer)) if offer.bonds > bid.bonds => Some(offer.price),
            _ => best_bid_or_offer(cut),
        }
    }
}
