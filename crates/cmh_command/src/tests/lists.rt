//! Lists of numbers.

use super::expect;
use crate::{ListFault, MAX_NUMBERS, read_list};
use std::alloc::{AllocError, Global};

/// Whether the text is read as these numbers.
fn is_read(alloc: Global, text: &str, numbers: &[u64]) -> bool {
    match read_list(alloc, text) {
        Ok(list) => list.as_slice() == numbers,
        Err(_) => false,
    }
}

#[test]
fn number_lists(rt: HostRuntime) {
    let rows: [(&str, &[u64]); 5] = [
        ("", &[]),
        ("1,1,1", &[1, 1, 1]),
        ("007", &[7]),
        ("2,18446744073709551615", &[2, 18446744073709551615]),
        ("00000000000000000000000000000000001", &[1]),
    ];
    for (text, numbers) in rows {
        assert!(rt; is_read(rt.alloc(), text, numbers), "{text}");
    }
}

#[test]
fn bad_numbers(rt: HostRuntime) {
    let rows = [
        ("1,,2", 1),
        ("1,2,", 2),
        ("18446744073709551616", 0),
        ("1,99999999999999999999999999,x", 1),
        ("+1", 0),
        ("1, 2", 1),
        ("0x1", 0),
        ("٣", 0),
    ];
    for (text, place) in rows {
        let fault = read_list(rt.alloc(), text).err();
        assert_eq!(rt; fault, Some(ListFault::BadNumber(place)), "{text}");
    }
}

/// As many numbers as there may be, each of twenty digits: 1,376,255 bytes.
fn longest_list(alloc: Global) -> Result<String, AllocError> {
    let mut text = String::from_str(alloc, "18446744073709551615")?;
    for _ in 1..65_536 {
        text.push_str(",18446744073709551615")?;
    }
    Ok(text)
}

/// Whether the text is read as the greatest numbers, as many as there may be.
fn is_read_in_full(alloc: Global, text: &str) -> bool {
    match read_list(alloc, text) {
        Ok(list) => list.len() == MAX_NUMBERS && list.iter().all(|n| *n == u64::MAX),
        Err(_) => false,
    }
}

#[test]
fn the_longest_list(rt: HostRuntime) -> Result<(), AllocError> {
    let mut text = longest_list(rt.alloc())?;
    assert_eq!(rt; text.len(), 1_376_255);
    expect(&rt, is_read_in_full(rt.alloc(), &text));
    text.push_str(",x")?;
    let fault = read_list(rt.alloc(), &text).err();
    assert_eq!(rt; fault, Some(ListFault::TooManyNumbers));
    Ok(())
}
