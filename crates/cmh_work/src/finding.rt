//! What a worker has found, before the history is closed.

use crate::record::Shape;
use cmh_graph::Verdict;

/// The verdict of a process, and the run that found it, where the board didn't know it.
#[derive(Drop)]
pub(crate) struct Answer<R> {
    pub(crate) verdict: Verdict,
    pub(crate) run: Option<R>,
}

/// What was found of one idle process. Where there is no run, the verdict stands on the board.
#[derive(Drop)]
pub(crate) struct Finding<R, P> {
    pub(crate) initiator: u32,
    pub(crate) verdict: Verdict,
    pub(crate) run: Option<R>,
    pub(crate) shape: Shape<P>,
}
