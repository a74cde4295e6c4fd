//! Texts of more than 1 MiB, and on many sites.
//!
//! No contract says in how many chunks lines are made, and each piece of a text is one write. A chunk's lines are joined
//! from the last to the first, to a piece once they have 65,536 bytes, and the others of the chunk make a piece too.

use crate::expect::expect;
use crate::graphs::part;
use crate::report::large::{Family, dump_of, text_of};
use crate::report::report_of;
use cmh_graph::WaitGraph;
use cmh_report::analyse_bytes;
use cmh_stream::{ReadOf, WriteOf};
use cmh_work::{NoGate, Plan};
use std::io;
use std::io::Write;
use std::test::Fail;

/// Takes all bytes, and counts the writes.
#[derive(Drop)]
struct Tray {
    bytes: Vec<u8>,
    writes: usize,
}

impl Write for Tray {
    fn write(&mut self, buf: &[u8]) -> io::Result<usize> {
        self.bytes.extend_from_slice(buf)?;
        self.writes = self.writes.saturating_add(1);
        Ok(buf.len())
    }

    fn flush(&mut self) -> io::Result<()> {
        Ok(())
    }
}

/// The writes were counted by another program, for chunks of 163 and 47 paths, and of 40 and 24 groups: those of 800
/// take about as long as a thread takes to start, and the others are the fewest that make at most 64 chunks.
#[test]
fn lines_come_in_chunks(rt: HostRuntime) -> Result<(), Fail> {
    let rows = [
        (Family::Path, 800, 59),
        (Family::Path, 3_000, 790),
        (Family::Chain, 800, 67),
        (Family::Chain, 1_500, 221),
    ];
    for (family, count, writes) in rows {
        let dump = dump_of(rt.alloc(), family, count)?;
        let mut tray = Tray {
            bytes: Vec::new(rt.alloc()),
            writes: 0,
        };
        let answer = analyse_bytes(
            &rt,
            rt.alloc(),
            &mut ReadOf::new(dump.as_bytes()),
            &mut WriteOf::new(&mut tray),
            &Plan::new(rt.alloc(), 4, &[64; 64], &[])?,
            &NoGate,
        );
        expect(&rt, answer.is_ok());
        let text = text_of(rt.alloc(), family, count)?;
        assert!(rt;
            tray.bytes.as_slice() == text.as_bytes(),
            "bytes of {count}"
        );
        assert_eq!(rt; tray.writes, writes, "writes of {count}");
    }
    Ok(())
}

/// 4,096 processes in a ring, two by two at the 2,048 sites with the greatest numbers.
#[test]
fn many_sites_with_great_numbers(rt: HostRuntime) -> Result<(), Fail> {
    let alloc = rt.alloc();
    let mut parts = Vec::new(alloc);
    for p in 0..4_096u32 {
        let mut one = part(alloc, Some(&[p.saturating_add(1) % 4_096]))?;
        one.site = u32::MAX - p / 2;
        parts.push(one)?;
    }
    let graph = WaitGraph::build(alloc, parts)?;
    let text = report_of(&rt, &graph, 4);
    expect(
        &rt,
        text.is_some_and(|text| text.ends_with(" | - | sites 2048\n")),
    );
    Ok(())
}
