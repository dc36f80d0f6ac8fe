// The sessions of entries in every phase.
use crate::forms::PLAIN;
use editions::text2016::Text2016;
use entries::form::check_form;
use orders::entry::Entry;
use orders::phase::Phase;
use std::test::Fail;

const PHASES: [Phase; 5] = [
    Phase::Queue,
    Phase::Opening,
    Phase::Core,
    Phase::Late,
    Phase::Closed,
];

// Time, kind, minimum and designation of an entry, and the sessions that it has if it is entered in
// Queue, Opening, Core, Late or Closed, as designations.
const ROWS: [(u8, u8, u32, u8, [u8; 5]); 13] = [
    (b'D', b'L', 0, 0, [2, 2, 2, 2, 2]),
    (b'D', b'A', 0, 0, [2, 3, 2, 2, 2]),
    (b'D', b'M', 9, 0, [2, 3, 2, 2, 2]),
    (b'D', b'F', 0, 0, [0, 1, 2, 4, 0]),
    (b'D', b'L', 0, 1, [1, 1, 1, 1, 1]),
    (b'D', b'A', 0, 4, [4, 4, 4, 4, 4]),
    (b'D', b'M', 9, 6, [6, 6, 6, 6, 6]),
    (b'D', b'L', 0, 7, [7, 7, 7, 7, 7]),
    (b'C', b'L', 0, 0, [2, 2, 2, 2, 2]),
    (b'C', b'A', 0, 0, [2, 2, 2, 2, 2]),
    (b'C', b'M', 9, 0, [2, 2, 2, 2, 2]),
    (b'G', b'L', 0, 0, [2, 2, 2, 2, 2]),
    (b'G', b'A', 0, 0, [2, 2, 2, 2, 2]),
];

#[test]
fn sessions_of_entries(rt: HostRuntime) -> Result<(), Fail> {
    for (place, &(time, kind, minimum, designation, wanted)) in ROWS.iter().enumerate() {
        let entry = Entry {
            kind,
            minimum,
            time,
            designation,
            ..PLAIN
        };
        let checked = check_form::<Text2016>(&entry)?;
        let sessions = PHASES.map(|phase| u8::from(checked.sessions(phase)));
        assert_eq!(rt; sessions, wanted, "{place}");
    }
    Ok(())
}
