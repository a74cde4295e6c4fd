//! The line of each fault, and its status: those that need refused memory are made by hand here.

use super::devices::Page;
use super::is;
use crate::ListFault;
use crate::tell::{fail, refuse_list, refuse_plan};
use cmh_dump::DumpFault;
use cmh_plan::PlanFault;
use cmh_report::AppFault::{Dump, NoSuchProcess, Report, Run, Work, WriteFault};
use cmh_report::ReportFault;
use cmh_run::RunFault;
use cmh_stream::WriteOf;
use cmh_work::WorkFault;
use std::alloc::{AllocError, Global};

/// Whether the page holds this text as a line of the program.
fn is_line(alloc: Global, page: &Page, text: &str) -> Result<bool, AllocError> {
    let line = format!(in alloc; "cmh: {text}\n")?;
    Ok(is(page, &line))
}

#[test]
fn faults(rt: HostRuntime) -> Result<(), AllocError> {
    let rows = [
        ("dump: out of memory", Dump(DumpFault::Memory), 4),
        ("dump: read fault", Dump(DumpFault::ReadFault), 4),
        ("dump: bad process 3", Dump(DumpFault::BadProcess(3)), 1),
        ("work: out of memory", Work(WorkFault::Memory), 4),
        ("work: worker lost", Work(WorkFault::WorkerLost), 4),
        ("no such process", NoSuchProcess, 2),
        ("trace: not idle", Run(RunFault::NotIdle), 2),
        ("trace: too many choices", Run(RunFault::TooManyChoices), 2),
        ("trace: bad restarts", Run(RunFault::BadRestarts), 2),
        ("trace: out of memory", Run(RunFault::Memory), 4),
        ("report: out of memory", Report(ReportFault::Memory), 4),
        ("write fault after 7654321 bytes", WriteFault(7654321), 4),
    ];
    for (text, fault, status) in rows {
        let mut err = Page::new(rt.alloc());
        let answer = fail(&fault, &mut WriteOf::new(&mut err));
        assert!(rt; is_line(rt.alloc(), &err, text)?, "{text}");
        assert_eq!(rt; answer, status, "{text}");
    }
    Ok(())
}

#[test]
fn faults_of_lists(rt: HostRuntime) -> Result<(), AllocError> {
    let rows = [
        ("cuts: bad number 3", ListFault::BadNumber(3), 2),
        ("cuts: too many numbers", ListFault::TooManyNumbers, 2),
        ("cuts: out of memory", ListFault::Memory, 4),
    ];
    for (text, fault, status) in rows {
        let mut err = Page::new(rt.alloc());
        let answer = refuse_list("cuts", &fault, &mut WriteOf::new(&mut err));
        assert!(rt; is_line(rt.alloc(), &err, text)?, "{text}");
        assert_eq!(rt; answer, status, "{text}");
    }
    Ok(())
}

#[test]
fn faults_of_plans(rt: HostRuntime) -> Result<(), AllocError> {
    let rows = [
        ("plan: bad workers", PlanFault::BadWorkers, 2),
        ("plan: too many cuts", PlanFault::TooManyCuts, 2),
        ("plan: too many choices", PlanFault::TooManyChoices, 2),
        ("plan: out of memory", PlanFault::Memory, 4),
    ];
    for (text, fault, status) in rows {
        let mut err = Page::new(rt.alloc());
        let answer = refuse_plan(&fault, &mut WriteOf::new(&mut err));
        assert!(rt; is_line(rt.alloc(), &err, text)?, "{text}");
        assert_eq!(rt; answer, status, "{text}");
    }
    Ok(())
}
