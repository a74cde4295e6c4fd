//! The machine, and the words by one thread and by several.

mod machine;
mod posting;
mod surface;
mod threads;
mod words;

use crate::expect::{expect, expect_eq};
