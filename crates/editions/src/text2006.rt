// The text of 2006, for municipal boards.
ghost use Rattle.editions.specs.Texts.{text2006};
ghost use Rattle.editions.specs.Keeping.{lawful2006};
ghost use Rattle.std.proofs.Common.{true, false, rules};

use crate::common::{best_bid_or_offer, is_part};
use crate::cut::Cut;
use crate::edition::Edition;
use crate::sets::{KindSet, TimeSet};
use orders::terms::Terms;

pub struct Text2006;

impl Edition for Text2006 {
    const WIDTH: u32 = 1000;

    ghost WIDTH = { 1000 };

    const KINDS: KindSet = KindSet {
        limit: true,
        all_or_none: false,
        minimum_quantity: false,
        fill_or_kill: false,
    };

    ghost KINDS = { record { limit = true; all_or_none = false; minimum_quantity = false; fill_or_kill = false } };

    const TIMES: TimeSet = TimeSet {
        day: true,
        good_till_cancelled: true,
        good_till_date: false,
    };

    ghost TIMES = { record { day = true; good_till_cancelled = true; good_till_date = false } };

    ghost text = { text2006 };

    ghost width = { Prim.search rules };

    ghost kinds = { Prim.search rules };

    ghost times = { Prim.search rules };

    ghost lawful = { lawful2006 };

    fn admits(balance: u32, _terms: Terms, fill: u32) -> bool {
        is_part(balance, fill)
    }

    fn after(_balance: u32, terms: Terms, _fill: u32) -> Terms {
        terms
    }

    fn low(cut: &Cut) -> u32 {
        cut.offers.last
    }

    fn high(cut: &Cut) -> u32 {
        cut.bids.last
    }

    fn idle_price(cut: &Cut) -> Option<u32> {
        best_bid_or_offer(cut)
    }
}
