// One call of a shelf, and what it answered.
ghost use Rattle.std.specs.Prelude.{◌≡◌};
ghost use Rattle.script.specs.Steps.{after, answer_of, buy};

use orders::kind::Kind;
use orders::order::Order;
use orders::sessions::Sessions;
use orders::side::Side;
use orders::terms::Terms;
use orders::time::TimeInForce;
use shelves::rank::Rank;
use shelves::shelf::{PutRefusal, Shelf};

// Data, and no closure: a script is printed, and runs on shelves of different types.
#[derive(Clone, Copy)]
pub enum Step {
    Put {
        serial: u64,
        price: u32,
    },
    Take(usize),
    Write {
        place: usize,
        balance: u32,
        terms: Terms,
    },
    Find(u64),
    Show(usize),
}

#[derive(Clone, Copy, PartialEq, Eq, Debug)]
pub enum Answer {
    Placed(Result<(), PutRefusal>),
    Taken(Option<Order>),
    Written(Option<Order>),
    Found(Option<usize>),
    Shown(Option<Order>),
}

// An order of member 1 to buy 100 bonds, for the day's Core.
pub fn order(serial: u64, price: u32) -> Order
    ensures { result ≡ buy serial price }
{
    Order {
        serial,
        member: 1,
        side: Side::Buy,
        price,
        balance: 100,
        terms: Terms {
            kind: Kind::Limit,
            minimum: 0,
        },
        time: TimeInForce::Day,
        sessions: Sessions {
            opening: false,
            core: true,
            late: false,
        },
        date: 0,
    }
}

// Carries out a step on any shelf.
pub fn perform<R: Rank, S: Shelf<R>>(shelf: &mut S, step: Step) -> Answer
    ensures answer { result ≡ answer_of (S.Shelf.room shelf.old) step (S.Shelf.orders shelf.old) }
    ensures orders { S.Shelf.orders shelf.new ≡ after R.Rank.before (S.Shelf.room shelf.old) step (S.Shelf.orders shelf.old) }
    ensures room { S.Shelf.room shelf.new ≡ S.Shelf.room shelf.old }
{
    match step {
        Step::Put { serial, price } => Answer::Placed(shelf.put(order(serial, price))),
        Step::Take(place) => Answer::Taken(shelf.take(place)),
        Step::Write {
            place,
            balance,
            terms,
        } => Answer::Written(shelf.write(place, balance, terms)),
        Step::Find(serial) => Answer::Found(shelf.find(serial)),
        Step::Show(place) => Answer::Shown(shelf.show(place)),
    }
}
