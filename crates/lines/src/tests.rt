// Prices and letters at their edges.
use crate::letter::Letter;
use crate::price::Price;
use std::test::Fail;

#[test]
fn prices_have_three_decimals(rt: HostRuntime) -> Result<(), Fail> {
    let heap = rt.alloc();
    for (price, text) in [
        (101_250, "101.250"),
        (0, "0.000"),
        (7, "0.007"),
        (1_000_000, "1000.000"),
        (u32::MAX, "4294967.295"),
    ] {
        assert_eq!(rt; format!(in heap; "{}", Price(price))?.as_str(), text);
    }
    Ok(())
}

#[test]
fn other_bytes_are_shown_in_hexadecimal(rt: HostRuntime) -> Result<(), Fail> {
    let heap = rt.alloc();
    for (letter, text) in [
        (b'B', "B"),
        (0, "\\x00"),
        (31, "\\x1f"),
        (32, " "),
        (126, "~"),
        (127, "\\x7f"),
        (255, "\\xff"),
    ] {
        assert_eq!(rt; format!(in heap; "{}", Letter(letter))?.as_str(), text);
    }
    Ok(())
}
