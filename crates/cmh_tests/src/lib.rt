//! The tests of the crates, by their public calls: a module for each crate. They stand in a crate of their own, since
//! one that has tests is proved twice, without them and with them.
#![tactic(auto)]

#[cfg(test)]
mod board;
#[cfg(test)]
mod dump;
#[cfg(test)]
mod expect;
#[cfg(test)]
mod graph;
#[cfg(test)]
mod graphs;
#[cfg(test)]
mod plan;
#[cfg(test)]
mod process;
#[cfg(test)]
mod report;
#[cfg(test)]
mod run;
#[cfg(test)]
mod rw;
#[cfg(test)]
mod shortage;
#[cfg(test)]
mod stream;
#[cfg(test)]
mod text;
#[cfg(test)]
mod work;
