//! A bag of three messages.

use super::{expect, expect_eq};
use cmh_process::{Kind, Message};
use cmh_run::Bag;

fn query(to: u32) -> Message {
    Message {
        kind: Kind::Query,
        initiator: 0,
        number: 1,
        from: 0,
        to,
    }
}

#[test]
fn takes_by_choice(rt: HostRuntime) {
    let mut bag = Bag::new(rt.alloc());
    expect(&rt, bag.is_empty());
    for to in 1..4u32 {
        expect_eq(&rt, bag.push(query(to)), Ok(()));
    }
    expect_eq(&rt, bag.len(), 3);
    expect_eq(&rt, bag.get(1), Some(&query(2)));
    expect_eq(&rt, bag.get(3), None);
    expect_eq(&rt, bag.take(4), Some(query(2)));
    expect_eq(&rt, bag.take(18_446_744_073_709_551_615), Some(query(3)));
    expect_eq(&rt, bag.take(9), Some(query(1)));
    expect_eq(&rt, bag.take(0), None);
    expect_eq(&rt, bag, Bag::new(rt.alloc()));
}
