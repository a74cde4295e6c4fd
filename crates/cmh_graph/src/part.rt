//! The parts that a wait graph is made of.

/// What a process was doing when the dump was taken.
#[derive(Clone, Copy, PartialEq, Eq, Hash, Debug)]
pub enum State {
    /// It waits for a message from any one process of its dependent set.
    Idle,
    /// It executes, and may send at any time.
    Active,
}

/// One process of a dump. Processes are named by their indices in it, from 0.
#[derive(PartialEq, Eq, Debug, Drop)]
pub struct Part {
    pub name: String,
    /// A number for each site. Equal numbers are one site.
    pub site: u32,
    pub state: State,
    /// The processes of which any one unblocks this one by sending to it. Empty where it is active.
    pub dependents: Vec<u32>,
}
