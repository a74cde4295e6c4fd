//! Why an analysis or a trace gives no answer.

ghost use Rattle.std.specs.Prelude.{◌≡◌};
ghost use Rattle.cmh_report.specs.declared.fault.ReportFault.TheVariants.{Memory};
ghost use Rattle.cmh_report.specs.declared.fault.AppFault.TheVariants.{Dump, Work, Run, Report, WriteFault};

use cmh_dump::DumpFault;
use cmh_memory::Refusal;
use cmh_run::RunFault;
use cmh_work::WorkFault;
use thiserror::Error;

/// Why a graph has no report.
#[derive(Clone, Copy, PartialEq, Eq, Hash, Debug, Error)]
pub enum ReportFault {
    /// Memory was refused.
    #[error("out of memory")]
    Memory,
}

impl From<Refusal> for ReportFault {
    ghost from_gives = { λ _ e. e ≡ Memory };

    fn from(_e: Refusal) -> ReportFault {
        ReportFault::Memory
    }
}

/// Why an analysis or a trace gives no answer.
#[derive(Clone, Copy, PartialEq, Eq, Hash, Debug, Error)]
pub enum AppFault {
    /// The source gave no dump.
    #[error("dump: {0}")]
    Dump(DumpFault),
    /// The workers gave no analysis.
    #[error("work: {0}")]
    Work(WorkFault),
    /// No process has the name.
    #[error("no such process")]
    NoSuchProcess,
    /// The process has no run.
    #[error("trace: {0}")]
    Run(RunFault),
    /// There is no text to write.
    #[error("report: {0}")]
    Report(ReportFault),
    /// The sink has failed after it had taken this many bytes.
    #[error("write fault after {0} bytes")]
    WriteFault(usize),
}

impl From<DumpFault> for AppFault {
    ghost from_gives = { λ f e. e ≡ Dump f };

    fn from(fault: DumpFault) -> AppFault {
        AppFault::Dump(fault)
    }
}

impl From<WorkFault> for AppFault {
    ghost from_gives = { λ f e. e ≡ Work f };

    fn from(fault: WorkFault) -> AppFault {
        AppFault::Work(fault)
    }
}

impl From<RunFault> for AppFault {
    ghost from_gives = { λ f e. e ≡ Run f };

    fn from(fault: RunFault) -> AppFault {
        AppFault::Run(fault)
    }
}

impl From<ReportFault> for AppFault {
    ghost from_gives = { λ f e. e ≡ Report f };

    fn from(fault: ReportFault) -> AppFault {
        AppFault::Report(fault)
    }
}

impl From<cmh_stream::WriteFault> for AppFault {
    ghost from_gives = { λ f e. e ≡ WriteFault f.written };

    fn from(fault: cmh_stream::WriteFault) -> AppFault {
        AppFault::WriteFault(fault.written)
    }
}
