//! What the program says on standard error, in one line. No line needs memory, so out of memory never takes the place
//! of another fault.

ghost use Rattle.std.specs.Prelude.{◌≡◌};
ghost use Rattle.cmh.specs.Status.{status_of, status_of_list, status_of_plan};

use crate::status::{FAILED, MISUSED, status_of, status_of_list, status_of_plan};
use cmh_command::ListFault;
use cmh_plan::PlanFault;
use cmh_report::AppFault;
use cmh_stream::{Sink, put_all};
use std::fmt::Write;
use std::{fmt, io};

const OUT_OF_MEMORY: &str = "cmh: out of memory\n";

const NO_TEXT: &str = "cmh: the words of the command line are no text\n";

/// A sink as a place for formatted text: each piece goes out as it is made.
#[derive(Drop)]
struct Pieces<'a, E> {
    sink: &'a mut E,
}

impl<E: Sink> Write for Pieces<'_, E> {
    fn write_str(&mut self, s: &str) -> fmt::Result {
        put_all(self.sink, s.as_bytes()).map_err(|_| fmt::Error)
    }
}

/// Writes a text for the user. Nothing more can be done where the sink fails.
pub(crate) fn tell<E: Sink>(text: &str, err: &mut E) {
    let _ = put_all(err, text.as_bytes());
}

/// Reports a fault, whatever it is of, in one line.
fn tell_fault<F: fmt::Display, E: Sink>(fault: &F, err: &mut E) {
    let mut line = Pieces { sink: err };
    let _ = write!(line, "cmh: {fault}\n");
}

/// Says that there was no memory to read the words, and answers the status.
pub(crate) fn refuse_memory<E: Sink>(err: &mut E) -> u8
    ensures { result ≡ FAILED }
{
    tell(OUT_OF_MEMORY, err);
    FAILED
}

/// Says why the arguments can't be had, and answers the status.
pub(crate) fn refuse_args<E: Sink>(error: &io::Error, err: &mut E) -> u8 {
    if error.kind() == io::ErrorKind::OutOfMemory {
        return refuse_memory(err);
    }
    tell(NO_TEXT, err);
    MISUSED
}

/// Reports a fault, and answers the status.
pub(crate) fn fail<E: Sink>(fault: &AppFault, err: &mut E) -> u8
    ensures { result ≡ status_of fault.now }
{
    tell_fault(fault, err);
    status_of(fault)
}

/// Reports a fault of the list of this option, and answers the status.
pub(crate) fn refuse_list<E: Sink>(option: &str, fault: &ListFault, err: &mut E) -> u8
    ensures { result ≡ status_of_list fault.now }
{
    let mut line = Pieces { sink: err };
    let _ = write!(line, "cmh: {option}: {fault}\n");
    status_of_list(fault)
}

/// Reports a fault of the plan, and answers the status.
pub(crate) fn refuse_plan<E: Sink>(fault: &PlanFault, err: &mut E) -> u8
    ensures { result ≡ status_of_plan fault.now }
{
    let mut line = Pieces { sink: err };
    let _ = write!(line, "cmh: plan: {fault}\n");
    status_of_plan(fault)
}
