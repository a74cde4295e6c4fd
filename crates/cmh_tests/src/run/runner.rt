//! One run after another over the same graph, with and without logs.

use super::{KNOT_OF_THREE, expect_eq, graph_of};
use cmh_run::{BriefList, Delivery, Ending, NoHints, NoLog, RunFault, Runner};

/// Each initiator of the knot, with the number of its deliveries and the processes that engaged.
const OF_KNOT: [(u32, usize, &[u32]); 3] = [(0, 8, &[0, 1, 2]), (1, 4, &[1, 2]), (2, 4, &[2, 1])];

#[test]
fn one_network_serves_all_initiators(rt: HostRuntime) -> Result<(), RunFault> {
    let alloc = rt.alloc();
    let graph = graph_of(alloc, &KNOT_OF_THREE, &[])?;
    let mut runner = Runner::new(&graph);
    for (initiator, deliveries, engaged) in OF_KNOT {
        let kept = runner.run::<Vec<Delivery>, _>(alloc, initiator, &[], &mut NoHints)?;
        expect_eq(&rt, kept.log().len(), deliveries);
        let run = runner.run::<NoLog, _>(alloc, initiator, &[], &mut NoHints)?;
        expect_eq(&rt, run.ending(), Ending::Declared);
        expect_eq(&rt, run.engaged(), engaged);
        let run = runner
            .run_again::<NoLog, _>(alloc, initiator, &[], &mut NoHints, &[1])?
            .with_list::<BriefList>();
        expect_eq(&rt, (run.initiator(), run.restarted()), (initiator, 1));
    }
    Ok(())
}
