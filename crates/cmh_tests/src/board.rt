//! The board by one thread and by several, and when memory is refused.

mod full;
mod load;
mod memory;
mod rings;
mod runs;
mod seats;
mod threads;

use crate::expect::{expect, expect_eq};
