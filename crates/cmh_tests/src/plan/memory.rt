//! Plans while memory is short.

use super::expect;
use crate::shortage::take_all_but;
use cmh_plan::Plan;
use std::alloc::Global;
use std::test::Fail;

/// The most bytes that are left for a plan.
const ROOM: usize = 8_192;

/// With more and more memory, plans are refused at first, and then made. The contract says which plan each is.
#[test]
fn out_of_memory_in_a_plan(rt: HostRuntime) -> Result<(), Fail> {
    let alloc = rt.alloc();
    let shortage = take_all_but(alloc, ROOM)?;
    let mut was_made = false;
    let mut was_refused = false;
    for k in 0..ROOM / 16 {
        let taken: Result<Vec<u8>, _> = Vec::with_capacity(alloc, ROOM - 16 * k);
        let answer = Plan::new(alloc, 2, &[1, 2, 3], &[4, 5]);
        was_made = was_made || answer.is_ok();
        was_refused = was_refused || answer.is_err();
        drop(answer);
        drop(taken);
    }
    drop(shortage);
    expect(&rt, was_made);
    expect(&rt, was_refused);
    expect(&rt, Plan::new(alloc, 2, &[1, 2, 3], &[4, 5]).is_ok());
    Ok(())
}
