// Entries at the edges of every check of form, under both texts.
use editions::edition::Edition;
use editions::text2006::Text2006;
use editions::text2016::Text2016;
use entries::checked::CheckedEntry;
use entries::form::check_form;
use orders::entry::Entry;
use orders::kind::Kind;
use orders::refusal::Layer;
use orders::sessions::Sessions;
use orders::side::Side;
use orders::terms::Terms;
use orders::time::TimeInForce;
use std::process::Abort;

// A limit order for the day, and its likes of the other kinds and times.
pub const PLAIN: Entry = Entry {
    member: 1,
    side: b'B',
    price: 101_250,
    quantity: 75,
    kind: b'L',
    minimum: 0,
    time: b'D',
    designation: 0,
    date: 0,
};

const WHOLE: Entry = Entry {
    kind: b'A',
    ..PLAIN
};

const AT_LEAST: Entry = Entry {
    kind: b'M',
    ..PLAIN
};

const KILL: Entry = Entry {
    kind: b'F',
    ..PLAIN
};

const KEPT: Entry = Entry {
    time: b'C',
    ..PLAIN
};

const DATED: Entry = Entry {
    time: b'G',
    ..PLAIN
};

// The number of an entry's refusal under an edition, or none where it is taken. The layer is 2, and
// fields 2 to 9 have the numbers 6 to 13.
fn number<E: Edition>(rt: &impl Abort, entry: &Entry) -> Option<u8> {
    let refusal = check_form::<E>(entry).err()?;
    let number = u8::from(refusal.reason);
    assert_eq!(rt; refusal.reason.layer(), Layer::Form);
    assert_eq!(rt; refusal.place.checked_add(4), Some(usize::from(number)));
    Some(number)
}

// Each entry has these numbers under the texts of 2016 and of 2006.
fn each(rt: &impl Abort, entries: &[Entry], corporate: Option<u8>, municipal: Option<u8>) {
    for (place, entry) in entries.iter().enumerate() {
        assert_eq!(rt; number::<Text2016>(rt, entry), corporate, "{place}");
        assert_eq!(rt; number::<Text2006>(rt, entry), municipal, "{place}");
    }
}

#[test]
fn taken_under_both_texts(rt: HostRuntime) {
    let sides = [b'B', b'S'].map(|side| Entry { side, ..PLAIN });
    each(&rt, &sides, None, None);
    let prices = [1, 1_000_000].map(|price| Entry { price, ..PLAIN });
    each(&rt, &prices, None, None);
    let quantities = [1, 1_000_000].map(|quantity| Entry { quantity, ..PLAIN });
    each(&rt, &quantities, None, None);
    let designations = [1, 7].map(|designation| Entry {
        designation,
        ..PLAIN
    });
    each(&rt, &designations, None, None);
    each(&rt, &[KEPT], None, None);
}

#[test]
fn side(rt: HostRuntime) {
    let sides = [0, b'A', b'C', b'R', b'T', b'b', 255].map(|side| Entry { side, ..PLAIN });
    each(&rt, &sides, Some(6), Some(6));
}

#[test]
fn price_and_quantity(rt: HostRuntime) {
    let prices = [0, 1_000_001, u32::MAX].map(|price| Entry { price, ..PLAIN });
    each(&rt, &prices, Some(7), Some(7));
    let quantities = [0, 1_000_001, u32::MAX].map(|quantity| Entry { quantity, ..PLAIN });
    each(&rt, &quantities, Some(8), Some(8));
}

#[test]
fn kind(rt: HostRuntime) {
    let unknown = [0, b'B', b'K', b'N', b'R', b'l'].map(|kind| Entry { kind, ..PLAIN });
    each(&rt, &unknown, Some(9), Some(9));
    each(&rt, &[WHOLE, KILL], None, Some(9));
    let minimums = [1, 75].map(|minimum| Entry {
        minimum,
        ..AT_LEAST
    });
    each(&rt, &minimums, None, Some(9));
}

#[test]
fn minimum(rt: HostRuntime) {
    let plain = [1, 75].map(|minimum| Entry { minimum, ..PLAIN });
    each(&rt, &plain, Some(10), Some(10));
    let minimums = [0, 76, u32::MAX].map(|minimum| Entry {
        minimum,
        ..AT_LEAST
    });
    each(&rt, &minimums, Some(10), Some(9));
    let others = [(WHOLE, 1), (KILL, 75)].map(|(entry, minimum)| Entry { minimum, ..entry });
    each(&rt, &others, Some(10), Some(9));
}

#[test]
fn time(rt: HostRuntime) {
    let unknown = [0, b'B', b'E', b'T'].map(|time| Entry { time, ..PLAIN });
    each(&rt, &unknown, Some(11), Some(11));
    let dated = [0, 1].map(|date| Entry { date, ..DATED });
    each(&rt, &dated, None, Some(11));
    let whole = Entry {
        kind: b'A',
        date: u32::MAX,
        ..DATED
    };
    each(&rt, &[whole], None, Some(9));
    let kills = [(KEPT, 0), (DATED, 1)].map(|(entry, date)| Entry {
        kind: b'F',
        date,
        ..entry
    });
    each(&rt, &kills, Some(11), Some(9));
}

#[test]
fn designation(rt: HostRuntime) {
    let plain = [8, 255].map(|designation| Entry {
        designation,
        ..PLAIN
    });
    each(&rt, &plain, Some(12), Some(12));
    let kept = [1, 8].map(|designation| Entry {
        designation,
        ..KEPT
    });
    each(&rt, &kept, Some(12), Some(12));
    let dated = [1, 7].map(|designation| Entry {
        designation,
        date: 1,
        ..DATED
    });
    each(&rt, &dated, Some(12), Some(11));
    let kills = [1, 7].map(|designation| Entry {
        designation,
        ..KILL
    });
    each(&rt, &kills, Some(12), Some(9));
}

#[test]
fn date(rt: HostRuntime) {
    let plain = [PLAIN, KEPT].map(|entry| Entry { date: 1, ..entry });
    each(&rt, &plain, Some(13), Some(13));
    let asking = Entry {
        designation: 7,
        date: u32::MAX,
        ..PLAIN
    };
    each(&rt, &[asking], Some(13), Some(13));
    each(&rt, &[Entry { date: 1, ..KILL }], Some(13), Some(9));
}

// Side, price, quantity, kind, minimum, time, designation and date of an entry with two faults or
// more, and its refusal's number.
const FAULTY: [(u8, u32, u32, u8, u32, u8, u8, u32, u8); 8] = [
    (b'A', 0, 75, b'L', 0, b'D', 0, 0, 6),
    (b'B', 0, 0, b'L', 0, b'D', 0, 0, 7),
    (b'B', 1, 0, b'R', 0, b'D', 0, 0, 8),
    (b'B', 1, 1, b'R', 1, b'D', 0, 0, 9),
    (b'B', 1, 1, b'L', 1, b'T', 0, 0, 10),
    (b'B', 1, 1, b'L', 0, b'T', 8, 0, 11),
    (b'B', 1, 1, b'L', 0, b'D', 8, 1, 12),
    (0, 0, 0, 0, 1, 0, 8, 1, 6),
];

// Of two faults the one with the lower number is given.
#[test]
fn first_fault_is_given(rt: HostRuntime) {
    for &(side, price, quantity, kind, minimum, time, designation, date, number) in &FAULTY {
        let entry = Entry {
            member: 1,
            side,
            price,
            quantity,
            kind,
            minimum,
            time,
            designation,
            date,
        };
        each(&rt, &[entry], Some(number), Some(number));
    }
}

#[test]
fn checked_entry_says_what_was_sent(rt: HostRuntime) {
    let sent = Entry {
        side: b'S',
        kind: b'M',
        minimum: 25,
        designation: 5,
        ..PLAIN
    };
    let wanted = CheckedEntry {
        member: 1,
        side: Side::Sell,
        price: 101_250,
        quantity: 75,
        terms: Terms {
            kind: Kind::MinimumQuantity,
            minimum: 25,
        },
        time: TimeInForce::Day,
        designation: Some(Sessions {
            opening: true,
            core: false,
            late: true,
        }),
        date: 0,
    };
    assert_eq!(rt; check_form::<Text2016>(&sent), Ok(wanted));
}

#[test]
fn checked_dated_entry_says_what_was_sent(rt: HostRuntime) {
    let sent = Entry {
        price: 1,
        quantity: 1,
        date: 9,
        ..DATED
    };
    let wanted = CheckedEntry {
        member: 1,
        side: Side::Buy,
        price: 1,
        quantity: 1,
        terms: Terms {
            kind: Kind::Limit,
            minimum: 0,
        },
        time: TimeInForce::GoodTillDate,
        designation: None,
        date: 9,
    };
    assert_eq!(rt; check_form::<Text2016>(&sent), Ok(wanted));
}
