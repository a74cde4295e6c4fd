//! Reports at full size, beside the lines of the format made one by one.

use super::{page, report_of};
use cmh_dump::read_dump;
use cmh_report::analyse_bytes;
use cmh_stream::{ReadOf, WriteOf};
use cmh_work::{NoGate, Plan};
use std::alloc::{AllocError, Global};
use std::sync::Wait;
use std::test::Fail;
use std::thread::Threads;

/// Idle processes on one site, and which of them each waits for.
#[derive(Clone, Copy, PartialEq)]
pub(crate) enum Family {
    /// No process waits for any.
    Alone,
    /// Each waits for all.
    Knot,
    /// Each waits for the next, and the last for none.
    Chain,
    /// Each waits for the next, and the last is active.
    Path,
}

/// The places from the first number on and below the second.
type Span = (u32, u32);

fn dependents(family: Family, count: u32, p: u32) -> Span {
    let next = p.saturating_add(1);
    match family {
        Family::Alone => (0, 0),
        Family::Knot => (0, count),
        Family::Chain | Family::Path => (next, next.saturating_add(1).min(count)),
    }
}

/// The core of the group of this number, from 0, and its rest.
fn members(family: Family, count: u32, number: u32) -> (Span, Span) {
    let next = number.saturating_add(1);
    match family {
        Family::Alone => ((number, next), (0, 0)),
        Family::Knot => ((0, count), (0, 0)),
        Family::Chain | Family::Path => ((number, next), (next, count)),
    }
}

/// A dump of this many processes.
pub(crate) fn dump_of(alloc: Global, family: Family, count: u32) -> Result<String, AllocError> {
    let mut dump = String::from_str(alloc, "{\"version\":1,\"sites\":[\"a\"],\"processes\":[")?;
    for p in 0..count {
        let comma = if p == 0 { "" } else { "," };
        write!(dump, "{comma}{{\"name\":\"process-{p}\",\"site\":\"a\",")?;
        if family == Family::Path && p.saturating_add(1) == count {
            dump.push_str("\"state\":\"active\"}")?;
        } else {
            dump.push_str("\"state\":\"idle\",\"dependents\":[")?;
            push_quoted(&mut dump, dependents(family, count, p))?;
            dump.push_str("]}")?;
        }
    }
    dump.push_str("]}")?;
    Ok(dump)
}

fn push_quoted(dump: &mut String, span: Span) -> Result<(), AllocError> {
    for p in span.0..span.1 {
        let comma = if p == span.0 { "" } else { "," };
        write!(dump, "{comma}\"process-{p}\"")?;
    }
    Ok(())
}

/// The report on that dump.
pub(crate) fn text_of(alloc: Global, family: Family, count: u32) -> Result<String, AllocError> {
    if family == Family::Path {
        return path_text(alloc, count);
    }
    let mut text = format!(in alloc;
        "processes {count} active 0 idle {count} deadlocked {count}\n"
    )?;
    for p in 0..count {
        let number = match family {
            Family::Knot => 1,
            Family::Alone | Family::Chain | Family::Path => p.saturating_add(1),
        };
        write!(text, "deadlocked process-{p} group {number}\n")?;
    }
    push_groups(&mut text, family, count)?;
    Ok(text)
}

/// The report on a path.
fn path_text(alloc: Global, count: u32) -> Result<String, AllocError> {
    let idle = count.saturating_sub(1);
    let mut text = format!(in alloc; "processes {count} active 1 idle {idle} deadlocked 0\n")?;
    for p in 0..idle {
        write!(text, "free process-{p} path")?;
        push_names(&mut text, (p, count))?;
        text.push_str("\n")?;
    }
    Ok(text)
}

fn push_groups(text: &mut String, family: Family, count: u32) -> Result<(), AllocError> {
    let groups = match family {
        Family::Knot => 1,
        Family::Alone | Family::Chain | Family::Path => count,
    };
    for number in 0..groups {
        let (core, rest) = members(family, count, number);
        write!(text, "group {} |", number.saturating_add(1))?;
        push_names(text, core)?;
        text.push_str(if rest.0 >= rest.1 { " | -" } else { " |" })?;
        push_names(text, rest)?;
        text.push_str(" | sites 1\n")?;
    }
    Ok(())
}

fn push_names(text: &mut String, span: Span) -> Result<(), AllocError> {
    for p in span.0..span.1 {
        write!(text, " process-{p}")?;
    }
    Ok(())
}

/// The length of the report on a graph, if the report is right.
fn length_of<R: AllocGlobal + Threads + Wait + Sync>(
    rt: &R,
    family: Family,
    count: u32,
) -> Result<Option<usize>, Fail> {
    let dump = dump_of(rt.alloc(), family, count)?;
    let graph = read_dump(rt.alloc(), dump.as_bytes())?;
    let Some(text) = report_of(rt, &graph, 4) else {
        return Ok(None);
    };
    if text == text_of(rt.alloc(), family, count)? {
        return Ok(Some(text.len()));
    }
    Ok(None)
}

/// The lengths were computed by another program.
#[test]
fn full_graphs(rt: HostRuntime) -> Result<(), Fail> {
    let rows = [
        (Family::Alone, 4_096, 302_816),
        (Family::Knot, 256, 10_859),
        (Family::Chain, 4_096, 108_815_411),
    ];
    for (family, count, length) in rows {
        assert!(rt; length_of(&rt, family, count)? == Some(length), "{length}");
    }
    Ok(())
}

/// Whether this many workers make the report of the dump, from end to end.
fn reports_by<R: AllocGlobal + Threads + Wait + Sync>(
    rt: &R,
    dump: &str,
    text: &str,
    workers: u32,
) -> Result<bool, Fail> {
    let mut out = page(rt.alloc(), 1_000_000);
    let answer = analyse_bytes(
        rt,
        rt.alloc(),
        &mut ReadOf::new(dump.as_bytes()),
        &mut WriteOf::new(&mut out),
        &Plan::new(rt.alloc(), workers, &[64; 64], &[])?,
        &NoGate,
    );
    Ok(answer.is_ok() && out.bytes.as_slice() == text.as_bytes())
}

#[test]
fn full_dumps(rt: HostRuntime) -> Result<(), Fail> {
    for (family, count) in [(Family::Alone, 4_096), (Family::Knot, 256)] {
        let dump = dump_of(rt.alloc(), family, count)?;
        let text = text_of(rt.alloc(), family, count)?;
        for workers in [1, 64] {
            assert!(rt;
                reports_by(&rt, &dump, &text, workers)?,
                "{count} by {workers}"
            );
        }
    }
    Ok(())
}
