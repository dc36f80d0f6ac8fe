// Sets of kinds and of times in force, by whether each is in them. Two types and no generic one, as the
// flags of each have names.
ghost use Rattle.std.specs.Prelude.{◌≡◌};
ghost use Rattle.editions.specs.Sets.{has_kind, has_time};

use orders::kind::Kind;
use orders::time::TimeInForce;

// Not a `&'static [Kind]`: tried, and the proof that it equals its ghost member did not close, since an
// `impl` cannot name the address that the slice lies at.
#[derive(Clone, Copy, PartialEq, Eq, Debug)]
pub struct KindSet {
    pub limit: bool,
    pub all_or_none: bool,
    pub minimum_quantity: bool,
    pub fill_or_kill: bool,
}

#[derive(Clone, Copy, PartialEq, Eq, Debug)]
pub struct TimeSet {
    pub day: bool,
    pub good_till_cancelled: bool,
    pub good_till_date: bool,
}

impl KindSet {
    pub fn contains(self, kind: Kind) -> bool
        ensures { result ≡ has_kind self kind }
    {
        match kind {
            Kind::Limit => self.limit,
            Kind::AllOrNone => self.all_or_none,
            Kind::MinimumQuantity => self.minimum_quantity,
            Kind::FillOrKill => self.fill_or_kill,
        }
    }
}

impl TimeSet {
    pub fn contains(self, time: TimeInForce) -> bool
        ensures { result ≡ has_time self time }
    {
        match time {
            TimeInForce::Day => self.day,
            TimeInForce::GoodTillCancelled => self.good_till_cancelled,
            TimeInForce::GoodTillDate => self.good_till_date,
        }
    }
}
