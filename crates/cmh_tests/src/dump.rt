//! Dumps that are accepted and dumps that are refused. Wanted answers are from the rules of dumps, by hand.

mod accepted;
mod in_transit;
mod limits;
mod memory;
mod refused;
mod sources;

use crate::expect::{expect, expect_eq};
use cmh_dump::read_dump;
use std::alloc::{AllocError, Global};

const TWO_IN_A_CYCLE: &str = concat!(
    r#"{"version":1,"sites":["a"],"processes":["#,
    r#"{"name":"p","site":"a","state":"idle","dependents":["q"]},"#,
    r#"{"name":"q","site":"a","state":"idle","dependents":["p"]}]}"#,
);

/// The answer to the bytes: `accepted`, or the text of the fault.
fn answer(alloc: Global, bytes: &[u8]) -> Result<String, AllocError> {
    match read_dump(alloc, bytes) {
        Ok(_) => String::from_str(alloc, "accepted"),
        Err(fault) => fault.to_string(alloc),
    }
}

/// Whether this is the answer to the bytes.
fn is_answered(alloc: Global, bytes: &[u8], wanted: &str) -> Result<bool, AllocError> {
    Ok(answer(alloc, bytes)?.as_str() == wanted)
}

/// The place of the first dump with another answer than the one beside it.
fn first_wrong(alloc: Global, rows: &[(&str, &str)]) -> Result<Option<usize>, AllocError> {
    for (i, (dump, wanted)) in rows.iter().enumerate() {
        if !is_answered(alloc, dump.as_bytes(), wanted)? {
            return Ok(Some(i));
        }
    }
    Ok(None)
}
