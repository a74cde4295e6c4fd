//! Dumps at the limits, and one past them.

use super::{TWO_IN_A_CYCLE, expect, is_answered};
use std::alloc::{AllocError, Global};
use std::fmt::Write;
use std::test::Fail;

/// The texts `"p0"`, `"p1"`, .. up to this many, with commas between them.
fn names(alloc: Global, count: usize) -> Result<String, AllocError> {
    let mut text = String::new(alloc);
    for i in 0..count {
        let comma = if i == 0 { "" } else { "," };
        write!(text, "{comma}\"p{i}\"")?;
    }
    Ok(text)
}

/// A dump of the processes `p0`, `p1`, .. up to this many, all of which have these dependents.
fn processes(alloc: Global, count: usize, dependents: &str) -> Result<String, AllocError> {
    let mut text = String::from_str(alloc, r#"{"version":1,"sites":["a"],"processes":["#)?;
    for i in 0..count {
        let comma = if i == 0 { "" } else { "," };
        write!(text, r#"{comma}{{"name":"p{i}","site":"a","state":"idle","#)?;
        write!(text, r#""dependents":[{dependents}]}}"#)?;
    }
    text.push_str("]}")?;
    Ok(text)
}

/// A dump of sites, this many.
fn sites(alloc: Global, count: usize) -> Result<String, AllocError> {
    let names = names(alloc, count)?;
    format!(in alloc; r#"{{"version":1,"sites":[{names}],"processes":[]}}"#)
}

/// A dump of two processes that wait for each other, with the same message this many times.
fn messages(alloc: Global, count: usize) -> Result<String, AllocError> {
    let mut text = String::from_str(alloc, r#"{"version":2,"sites":["a"],"processes":["#)?;
    text.push_str(r#"{"name":"p","site":"a","state":"idle","dependents":["q"]},"#)?;
    text.push_str(r#"{"name":"q","site":"a","state":"idle","dependents":["p"]}],"#)?;
    text.push_str(r#""in_transit":["#)?;
    for i in 0..count {
        let comma = if i == 0 { "" } else { "," };
        write!(text, r#"{comma}["p","p"]"#)?;
    }
    text.push_str("]}")?;
    Ok(text)
}

#[test]
fn limit_of_sites(rt: HostRuntime) -> Result<(), Fail> {
    let alloc = rt.alloc();
    for (count, wanted) in [(4_096, "accepted"), (4_097, "too many sites")] {
        let dump = sites(alloc, count)?;
        assert!(rt; is_answered(alloc, dump.as_bytes(), wanted)?, "{count}");
    }
    Ok(())
}

#[test]
fn limit_of_processes(rt: HostRuntime) -> Result<(), Fail> {
    let alloc = rt.alloc();
    for (count, wanted) in [(4_096, "accepted"), (4_097, "too many processes")] {
        let dump = processes(alloc, count, "")?;
        assert!(rt; is_answered(alloc, dump.as_bytes(), wanted)?, "{count}");
    }
    Ok(())
}

#[test]
fn limit_of_messages(rt: HostRuntime) -> Result<(), Fail> {
    let alloc = rt.alloc();
    for (count, wanted) in [(4_096, "accepted"), (4_097, "too many in transit")] {
        let dump = messages(alloc, count)?;
        assert!(rt; is_answered(alloc, dump.as_bytes(), wanted)?, "{count}");
    }
    Ok(())
}

/// The dump with one process more, which has one dependent.
fn with_one_dependent_more(alloc: Global, dump: &str) -> Result<String, AllocError> {
    let processes = dump.strip_suffix("]}").unwrap_or("");
    let one_more = r#"{"name":"q","site":"a","state":"idle","dependents":["p0"]}"#;
    format!(in alloc; "{processes},{one_more}]}}")
}

#[test]
fn limit_of_dependencies(rt: HostRuntime) -> Result<(), Fail> {
    let alloc = rt.alloc();
    let dump = processes(alloc, 256, &names(alloc, 256)?)?;
    expect(&rt, is_answered(alloc, dump.as_bytes(), "accepted")?);
    let dump = with_one_dependent_more(alloc, &dump)?;
    expect(
        &rt,
        is_answered(alloc, dump.as_bytes(), "too many dependencies")?,
    );
    Ok(())
}

#[test]
fn limit_of_bytes(rt: HostRuntime) -> Result<(), Fail> {
    let alloc = rt.alloc();
    let mut dump = Vec::from_slice(alloc, TWO_IN_A_CYCLE.as_bytes())?;
    dump.resize(8_388_608, b' ')?;
    expect(&rt, is_answered(alloc, &dump, "accepted")?);
    dump.push(b' ')?;
    expect(&rt, is_answered(alloc, &dump, "too long")?);
    Ok(())
}

/// A dump of one site, with a name of this many bytes.
fn site_of(alloc: Global, length: usize) -> Result<String, Fail> {
    let name = String::from_utf8(vec![in alloc; b'x'; length]?)?;
    Ok(format!(in alloc; r#"{{"version":1,"sites":["{name}"],"processes":[]}}"#)?)
}

#[test]
fn limit_of_names(rt: HostRuntime) -> Result<(), Fail> {
    let alloc = rt.alloc();
    for (length, wanted) in [(64, "accepted"), (65, "bad site 0")] {
        let dump = site_of(alloc, length)?;
        assert!(rt; is_answered(alloc, dump.as_bytes(), wanted)?, "{length}");
    }
    Ok(())
}
