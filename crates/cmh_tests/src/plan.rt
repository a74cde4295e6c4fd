//! Plans, and tickets that seats draw.

mod memory;
mod plans;
mod tickets;

use crate::expect::{expect, expect_eq};
