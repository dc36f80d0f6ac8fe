// What the two texts name and answer, on examples.
use crate::generic::{has_kind, has_time, width};
use crate::odd::Odd;
use editions::cut::{Cut, CutSide, Level};
use editions::edition::Edition;
use editions::text2006::Text2006;
use editions::text2016::Text2016;
use orders::kind::Kind;
use orders::terms::Terms;
use orders::time::TimeInForce;
use std::process::Abort;

const KINDS: [Kind; 4] = [
    Kind::Limit,
    Kind::AllOrNone,
    Kind::MinimumQuantity,
    Kind::FillOrKill,
];

const TIMES: [TimeInForce; 3] = [
    TimeInForce::Day,
    TimeInForce::GoodTillCancelled,
    TimeInForce::GoodTillDate,
];

// Which kinds and which times an edition has.
fn names<E: Edition>() -> ([bool; 4], [bool; 3]) {
    (
        KINDS.map(|kind| has_kind::<E>(kind)),
        TIMES.map(|time| has_time::<E>(time)),
    )
}

#[test]
fn generic_code_reads_what_an_edition_names(rt: HostRuntime) {
    assert_eq!(rt; width::<Text2006>(), 1000);
    assert_eq!(rt; width::<Text2016>(), 1000);
    assert_eq!(rt; width::<Odd>(), 0);
    assert_eq!(rt;
        names::<Text2006>(),
        ([true, false, false, false], [true, true, false])
    );
    assert_eq!(rt;
        names::<Text2016>(),
        ([true, true, true, true], [true, true, true])
    );
    assert_eq!(rt;
        names::<Odd>(),
        ([false, true, true, false], [false, false, true])
    );
}

const PLAIN: Terms = Terms {
    kind: Kind::Limit,
    minimum: 0,
};

const WHOLE: Terms = Terms {
    kind: Kind::AllOrNone,
    minimum: 0,
};

const KILL: Terms = Terms {
    kind: Kind::FillOrKill,
    minimum: 0,
};

const FOUR_HUNDRED: Terms = Terms {
    kind: Kind::MinimumQuantity,
    minimum: 400,
};

// Fills of a balance of 1,000, and whether it admits each: any part of it, the whole alone, or 400 and
// more.
const ANY: [(u32, bool); 5] = [
    (0, false),
    (1, true),
    (999, true),
    (1000, true),
    (1001, false),
];

const ALL: [(u32, bool); 5] = [
    (0, false),
    (1, false),
    (999, false),
    (1000, true),
    (1001, false),
];

const MORE: [(u32, bool); 5] = [
    (0, false),
    (399, false),
    (400, true),
    (1000, true),
    (1001, false),
];

fn admits<E: Edition>(rt: &impl Abort, terms: Terms, fills: &[(u32, bool)]) {
    for &(fill, wanted) in fills {
        assert_eq!(rt; E::admits(1000, terms, fill), wanted, "{fill}");
    }
}

#[test]
fn fills_of_a_thousand(rt: HostRuntime) {
    admits::<Text2006>(&rt, PLAIN, &ANY);
    admits::<Text2016>(&rt, PLAIN, &ANY);
    admits::<Text2016>(&rt, WHOLE, &ALL);
    admits::<Text2016>(&rt, KILL, &ALL);
    admits::<Text2016>(&rt, FOUR_HUNDRED, &MORE);
    assert!(rt; Text2016::admits(300, FOUR_HUNDRED, 300));
    assert!(rt; !Text2016::admits(300, FOUR_HUNDRED, 299));
}

#[test]
fn balance_under_its_minimum_turns_plain(rt: HostRuntime) {
    assert_eq!(rt; Text2016::after(1000, FOUR_HUNDRED, 600), FOUR_HUNDRED);
    assert_eq!(rt; Text2016::after(1000, FOUR_HUNDRED, 601), PLAIN);
    assert_eq!(rt; Text2016::after(1000, WHOLE, 1000), WHOLE);
    assert_eq!(rt; Text2016::after(1000, PLAIN, 600), PLAIN);
    assert_eq!(rt; Text2006::after(1000, PLAIN, 600), PLAIN);
}

#[test]
fn odd_balance_doubles_its_minimum(rt: HostRuntime) {
    let doubled = Terms {
        kind: Kind::MinimumQuantity,
        minimum: 800,
    };
    assert_eq!(rt; Odd::after(2000, FOUR_HUNDRED, 1200), doubled);
    let plain = Terms {
        kind: Kind::Limit,
        minimum: 1201,
    };
    assert_eq!(rt; Odd::after(2000, FOUR_HUNDRED, 1201), plain);
    assert!(rt; Odd::admits(75, WHOLE, 38));
    assert!(rt; !Odd::admits(75, WHOLE, 37));
}

// Buys of 500 at 102.000 and 500 at 101.750, and a sell of 500 at 101.000: all 500 of the sell trade.
const TRADING: Cut = Cut {
    volume: 500,
    bids: CutSide {
        last: 102_000,
        next: Some(101_750),
        best: Some(Level {
            price: 102_000,
            bonds: 500,
        }),
    },
    offers: CutSide {
        last: 101_000,
        next: None,
        best: Some(Level {
            price: 101_000,
            bonds: 500,
        }),
    },
};

// A buy of 300 at 101.000, and sells of 200 at 102.000 and 500 at 101.750: nothing can trade.
const APART: Cut = Cut {
    volume: 0,
    bids: CutSide {
        last: 0,
        next: Some(101_000),
        best: Some(Level {
            price: 101_000,
            bonds: 300,
        }),
    },
    offers: CutSide {
        last: 0,
        next: Some(101_750),
        best: Some(Level {
            price: 101_750,
            bonds: 500,
        }),
    },
};

const EMPTY: CutSide = CutSide {
    last: 0,
    next: None,
    best: None,
};

// The lowest and the highest price.
fn range<E: Edition>(cut: &Cut) -> (u32, u32) {
    (E::low(cut), E::high(cut))
}

#[test]
fn range_of_an_auction(rt: HostRuntime) {
    assert_eq!(rt; range::<Text2016>(&TRADING), (101_750, 102_000));
    assert_eq!(rt; range::<Text2006>(&TRADING), (101_000, 102_000));
    let sellers = Cut {
        offers: CutSide {
            next: Some(101_900),
            best: None,
            ..TRADING.offers
        },
        ..TRADING
    };
    assert_eq!(rt; range::<Text2016>(&sellers), (101_750, 101_900));
    assert_eq!(rt; range::<Text2006>(&sellers), (101_000, 102_000));
}

#[test]
fn price_when_nothing_can_trade(rt: HostRuntime) {
    let tie = Cut {
        offers: CutSide {
            best: Some(Level {
                price: 101_750,
                bonds: 300,
            }),
            ..APART.offers
        },
        ..APART
    };
    let bids = Cut {
        offers: EMPTY,
        ..APART
    };
    let offers = Cut {
        bids: EMPTY,
        ..APART
    };
    let neither = Cut {
        bids: EMPTY,
        offers: EMPTY,
        ..APART
    };
    // Each cut, with the price in 2016 and in 2006.
    let cuts = [
        (APART, Some(101_750), Some(101_000)),
        (tie, Some(101_000), Some(101_000)),
        (bids, Some(101_000), Some(101_000)),
        (offers, Some(101_750), Some(101_750)),
        (neither, None, None),
    ];
    for (cut, corporate, municipal) in cuts {
        assert_eq!(rt; Text2016::idle_price(&cut), corporate);
        assert_eq!(rt; Text2006::idle_price(&cut), municipal);
    }
}
