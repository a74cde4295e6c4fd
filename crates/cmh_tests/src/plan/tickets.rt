//! The numbers that seats draw.

use super::expect_eq;
use cmh_plan::Tickets;
use cmh_plan::laws::{law_drawn_once, law_drew_each_once};
use std::test::Fail;

#[test]
fn calls_of_laws() {
    law_drawn_once();
    law_drew_each_once();
}

#[test]
fn each_number_is_drawn_once(rt: HostRuntime) -> Result<(), Fail> {
    let (tickets, mut x) = Tickets::open(rt.alloc(), 2)?;
    let Some(mut y) = tickets.split(&mut x) else {
        panic!(rt; "a seat with the whole share is split")
    };
    expect_eq(&rt, (x.share(), y.share()), (63, 1));
    expect_eq(&rt, tickets.draw(&mut x), Some(0));
    expect_eq(&rt, tickets.draw(&mut y), Some(1));
    expect_eq(&rt, tickets.draw(&mut x), None);
    tickets.join(&mut y, x);
    expect_eq(&rt, y.share(), 64);
    expect_eq(&rt, tickets.draw(&mut y), None);
    Ok(())
}

#[test]
fn thousands_of_numbers(rt: HostRuntime) -> Result<(), Fail> {
    let (tickets, mut seat) = Tickets::open(rt.alloc(), u32::MAX)?;
    for n in 0..10_000 {
        expect_eq(&rt, tickets.draw(&mut seat), Some(n));
    }
    Ok(())
}
