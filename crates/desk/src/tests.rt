// The desk's arguments, and how far it comes in a stream.
use crate::arguments::{BadArguments, Request, parse};
use crate::listing::{Listing, list};
use std::alloc::{AllocError, Global};
use std::test::Fail;

fn words(heap: Global, texts: &[&str]) -> Result<Vec<String>, AllocError> {
    texts
        .iter()
        .map(|text| String::from_str(heap, text))
        .try_collect(heap)
}

#[test]
fn arguments_are_read(rt: HostRuntime) -> Result<(), Fail> {
    let heap = rt.alloc();
    let asked: [(&[&str], _); 5] = [
        (&[], Ok(Request::Listing)),
        (&["-"], Ok(Request::Listing)),
        (&["--help"], Ok(Request::Help)),
        (&["--hel"], Err(BadArguments::Unknown("--hel"))),
        (&["-", "--help"], Err(BadArguments::TooMany)),
    ];
    for (texts, answer) in asked {
        assert_eq!(rt; parse(words(heap, texts)?.as_slice()), answer);
    }
    Ok(())
}

#[test]
fn bad_arguments_are_one_clear_line(rt: HostRuntime) -> Result<(), Fail> {
    let heap = rt.alloc();
    for (word, line) in [
        ("2016", "unknown argument \"2016\" (see desk --help)"),
        ("a\nb", "unknown argument \"a\\nb\" (see desk --help)"),
    ] {
        let shown = format!(in heap; "{}", BadArguments::Unknown(word))?;
        assert_eq!(rt; shown.as_str(), line);
    }
    Ok(())
}

#[test]
fn listing_stops_at_a_refusal(rt: HostRuntime) -> Result<(), Fail> {
    let wanted = Listing {
        read: 4,
        records: 2,
    };
    assert_eq!(rt; list(&rt, b"TUTUXX")?, wanted);
    Ok(())
}
