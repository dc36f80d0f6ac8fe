// What an edition is: what it names, what it answers, and the laws that it keeps.
ghost use Rattle.std.specs.Prelude.{◌≡◌, ℕ};
ghost use Rattle.orders.specs.declared.kind.Kind.{Kind};
ghost use Rattle.orders.specs.declared.time.TimeInForce.{TimeInForce};
ghost use Rattle.editions.specs.declared.sets.KindSet.{KindSet};
ghost use Rattle.editions.specs.declared.sets.TimeSet.{TimeSet};
ghost use Rattle.editions.specs.Laws.{Lawful};
ghost use Rattle.editions.specs.Sets.{has_kind, has_time};
ghost use Rattle.editions.specs.Text.{Text};

use crate::cut::Cut;
use crate::sets::{KindSet, TimeSet};
use orders::terms::Terms;

pub trait Edition {
    // The collar width: how far beyond the best opposite price an entry's price may lie.
    const WIDTH: u32;

    ghost WIDTH: { ℕ };

    // The kinds that an entry may have.
    const KINDS: KindSet;

    ghost KINDS: { KindSet };

    // The times in force that an entry may have.
    const TIMES: TimeSet;

    ghost TIMES: { TimeSet };

    // What it names and answers.
    ghost text: { Text };

    // Whether a balance on its terms admits a fill. The two are no struct: a fill changes the balance by
    // a subtraction and the terms by `after`, so each caller would take it apart.
    fn admits(balance: u32, terms: Terms, fill: u32) -> bool
        ensures { result ≡ text.admits balance terms fill };

    // The terms of what is left of a balance after a fill.
    fn after(balance: u32, terms: Terms, fill: u32) -> Terms
        ensures { result ≡ text.after balance terms fill };

    // The lowest price at which an auction may trade.
    fn low(cut: &Cut) -> u32
        ensures { result ≡ text.low cut.now };

    // The highest price at which an auction may trade.
    fn high(cut: &Cut) -> u32
        ensures { result ≡ text.high cut.now };

    // The price of an auction in which nothing can trade.
    fn idle_price(cut: &Cut) -> Option<u32>
        ensures { result ≡ text.idle_price cut.now };

    ghost width: { WIDTH ≡ text.width };

    ghost kinds: { (k : Kind) → has_kind KINDS k ≡ text.kinds k };

    ghost times: { (t : TimeInForce) → has_time TIMES t ≡ text.times t };

    ghost lawful: { Lawful text };
}
