//! Analyses, and which workers make the runs.

mod analyses;
mod full;
mod gates;
mod memory;
mod wanted;
mod workers;

use crate::expect::{expect, expect_eq};
