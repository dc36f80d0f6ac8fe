// The reader on streams of every sort.
use crate::fields;
use crate::reader::Reader;
use crate::record::Record;
use orders::entry::{Cancel, Entry};
use orders::refusal::{Reason, Refusal};
use std::process::Abort;
use std::test::Fail;

// Member 1 buys 75 at 101.250: L, D, Core.
const ENTRY: &[u8; 26] = b"EN\0\0\0\x01B\0\x01\x8b\x82\0\0\0\x4bL\0\0\0\0D\x02\0\0\0\0";
// Member 0x01020304 cancels the serial 0x05060708090a0b0c.
const CANCEL: &[u8; 14] = b"CX\x01\x02\x03\x04\x05\x06\x07\x08\x09\x0a\x0b\x0c";

// The next read is refused for this reason, here and again, and the reader stays.
fn refuses(rt: &impl Abort, reader: &mut Reader, reason: Reason) {
    let place = reader.position();
    // The same call twice, so nothing to iterate over.
    for _ in 0..2 {
        assert_eq!(rt; reader.next(), Err(Refusal { reason, place }));
        assert_eq!(rt; reader.position(), place);
    }
}

fn ends(rt: &impl Abort, reader: &mut Reader) {
    let place = reader.position();
    assert_eq!(rt; reader.next(), Ok(None));
    assert_eq!(rt; reader.position(), place);
}

#[test]
fn empty_stream_ends(rt: HostRuntime) {
    ends(&rt, &mut Reader::new(b""));
}

#[test]
fn one_byte_is_no_mark(rt: HostRuntime) {
    refuses(&rt, &mut Reader::new(b"E"), Reason::UnknownMark);
}

#[test]
fn unknown_mark_is_refused(rt: HostRuntime) {
    for stream in [b"NE and more", b"EX and more", b"en and more"] {
        refuses(&rt, &mut Reader::new(stream), Reason::UnknownMark);
    }
}

#[test]
fn cut_records_are_refused(rt: HostRuntime) {
    for stream in [&ENTRY[..25], &ENTRY[..2], &CANCEL[..13]] {
        refuses(&rt, &mut Reader::new(stream), Reason::CutShort);
    }
}

#[test]
fn entry_is_read(rt: HostRuntime) -> Result<(), Fail> {
    let mut reader = Reader::new(ENTRY);
    let Ok(Some(Record::Enter(bytes))) = reader.next() else {
        return Err(Fail::new("no entry was read"));
    };
    let wanted = Entry {
        member: 1,
        side: b'B',
        price: 101_250,
        quantity: 75,
        kind: b'L',
        minimum: 0,
        time: b'D',
        designation: 2,
        date: 0,
    };
    assert_eq!(rt; fields::entry(bytes), wanted);
    assert_eq!(rt; reader.position(), 26);
    ends(&rt, &mut reader);
    Ok(())
}

#[test]
fn every_byte_counts(rt: HostRuntime) {
    let bytes = [
        1, 2, 3, 4, 5, 6, 7, 8, 9, 10, 11, 12, 13, 14, 15, 16, 17, 18, 19, 20, 255, 255, 255, 255,
    ];
    let wanted = Entry {
        member: 0x0102_0304,
        side: 5,
        price: 0x0607_0809,
        quantity: 0x0a0b_0c0d,
        kind: 14,
        minimum: 0x0f10_1112,
        time: 19,
        designation: 20,
        date: 0xffff_ffff,
    };
    assert_eq!(rt; fields::entry(&bytes), wanted);
}

#[test]
fn cancel_is_read(rt: HostRuntime) -> Result<(), Fail> {
    let mut reader = Reader::new(CANCEL);
    let Ok(Some(Record::Cancel(bytes))) = reader.next() else {
        return Err(Fail::new("no cancel was read"));
    };
    let wanted = Cancel {
        member: 0x0102_0304,
        serial: 0x0506_0708_090a_0b0c,
    };
    assert_eq!(rt; fields::cancel(bytes), wanted);
    assert_eq!(rt; reader.position(), 14);
    ends(&rt, &mut reader);
    Ok(())
}

#[test]
fn two_records_and_a_cut_third(rt: HostRuntime) {
    let mut reader = Reader::new(b"TUTUCX\0\0\0\x01");
    for position in [2, 4] {
        assert_eq!(rt; reader.next(), Ok(Some(Record::Turn)));
        assert_eq!(rt; reader.position(), position);
    }
    refuses(&rt, &mut reader, Reason::CutShort);
}
