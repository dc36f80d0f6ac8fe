// The scripts of the drill.
use orders::kind::Kind;
use orders::terms::Terms;
use script::step::Step;
use std::alloc::{AllocError, Global};

// Refusals of every sort, orders at one price and at others, a shelf emptied and filled again.
pub const MIXED: [Step; 40] = [
    Step::Show(0),
    Step::Take(0),
    Step::Write {
        place: 0,
        balance: 60,
        terms: Terms {
            kind: Kind::Limit,
            minimum: 0,
        },
    },
    Step::Find(7),
    Step::Put {
        serial: 3,
        price: 101_000,
    },
    Step::Put {
        serial: 3,
        price: 102_000,
    },
    Step::Put {
        serial: 4,
        price: 101_250,
    },
    Step::Put {
        serial: 5,
        price: 101_000,
    },
    Step::Put {
        serial: 2,
        price: 101_000,
    },
    Step::Put {
        serial: 6,
        price: 100_000,
    },
    Step::Put {
        serial: 2,
        price: 101_000,
    },
    Step::Find(2),
    Step::Find(5),
    Step::Find(6),
    Step::Write {
        place: 1,
        balance: 40,
        terms: Terms {
            kind: Kind::MinimumQuantity,
            minimum: 20,
        },
    },
    Step::Write {
        place: 4,
        balance: 40,
        terms: Terms {
            kind: Kind::Limit,
            minimum: 0,
        },
    },
    Step::Show(0),
    Step::Show(1),
    Step::Show(2),
    Step::Show(3),
    Step::Show(4),
    Step::Take(1),
    Step::Take(3),
    Step::Put {
        serial: 6,
        price: 100_000,
    },
    Step::Show(3),
    Step::Take(3),
    Step::Take(0),
    Step::Take(1),
    Step::Take(0),
    Step::Take(0),
    Step::Find(3),
    Step::Put {
        serial: 9,
        price: 1,
    },
    Step::Put {
        serial: 8,
        price: 1_000_000,
    },
    Step::Put {
        serial: 1,
        price: 1,
    },
    Step::Put {
        serial: 7,
        price: 500_000,
    },
    Step::Put {
        serial: 10,
        price: 500_000,
    },
    Step::Show(0),
    Step::Show(1),
    Step::Show(2),
    Step::Show(3),
];

// Steps on a shelf of 4,096 orders, which leave as many.
pub const PROBE: [Step; 17] = [
    Step::Put {
        serial: 5000,
        price: 100_050,
    },
    Step::Put {
        serial: 17,
        price: 100_050,
    },
    Step::Show(0),
    Step::Show(2047),
    Step::Show(4095),
    Step::Show(4096),
    Step::Find(0),
    Step::Find(4095),
    Step::Find(4096),
    Step::Write {
        place: 2047,
        balance: 1,
        terms: Terms {
            kind: Kind::AllOrNone,
            minimum: 0,
        },
    },
    Step::Write {
        place: 4096,
        balance: 1,
        terms: Terms {
            kind: Kind::AllOrNone,
            minimum: 0,
        },
    },
    Step::Take(4096),
    Step::Take(2047),
    Step::Put {
        serial: 17,
        price: 100_050,
    },
    Step::Put {
        serial: 5000,
        price: 100_050,
    },
    Step::Find(5000),
    Step::Put {
        serial: 5001,
        price: 100_050,
    },
];

// A put for each place, of serials from 0 on in a mixed order, at 97 prices.
pub fn filled(heap: Global, places: u32) -> Result<Vec<Step>, AllocError> {
    (0..places)
        .map(|i| Step::Put {
            serial: u64::from(i) * 2711 % 4096,
            price: 100_000 + i % 97,
        })
        .collect(heap)
}
