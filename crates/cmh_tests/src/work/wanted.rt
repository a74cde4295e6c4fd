//! The shapes and logs of worked graphs.

use cmh_graph::Verdict;
use cmh_process::{Kind, Message};
use cmh_run::Delivery;
use cmh_work::{Origin, Record};

/// The shape that is wanted of an idle process.
#[derive(Clone, Copy)]
pub(super) enum Wanted<'a> {
    Path(&'a [u32]),
    Leader(u32),
}

/// A delivery in the first computation of an initiator.
pub(super) fn delivery(
    kind: Kind,
    initiator: u32,
    (from, to): (u32, u32),
    hint: Option<Verdict>,
) -> Delivery {
    let message = Message {
        kind,
        initiator,
        number: 1,
        from,
        to,
    };
    Delivery { message, hint }
}

/// Whether the verdict comes from a run with this log.
pub(super) fn is_from_run(record: &Record, log: &[Delivery]) -> bool {
    match &record.source {
        Origin::FromRun(run) => run.log() == log,
        Origin::FromBoard(_) => false,
    }
}

/// Whether the verdict comes from the row of this number.
pub(super) fn is_from_row(record: &Record, number: u32) -> bool {
    matches!(record.source, Origin::FromBoard(n) if n == number)
}
