//! Devices that work, that fail, and that work in small pieces.

mod memory;
mod reading;
mod surface;
mod writing;

use crate::expect::{expect, expect_eq};
