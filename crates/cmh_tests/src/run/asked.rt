//! The processes that a run asks its hints about: each that is about to engage, once, and no other.

ghost use Rattle.std.specs.Prelude.{◌≡◌, ◌<◌, ⊤, None, IfSome};
ghost use Rattle.cmh_graph.specs.Graph.{Graph, process_count};
ghost use Rattle.cmh_graph.specs.Verdict.{IsVerdict};

use super::{
    FREE_BY_TWO, KNOT_OF_THREE, ONE_FREE_ONE_STUCK, TWO_IN_A_CYCLE, WAITS_FOR_ITSELF, Waits,
    graph_of,
};
use cmh_graph::Verdict;
use cmh_run::{Hints, RunFault, run_again};
use std::alloc::Global;

/// Never answers, and keeps the processes that it was asked about.
#[derive(Drop)]
struct Asked {
    list: Vec<u32>,
}

impl Hints for Asked {
    ghost speaks_of = { λ h g. ⊤ };

    ghost keeps = { λ a b. ⊤ };

    ghost is_silent = { λ h. ⊤ };

    ghost has_asked = { λ a b asks. ⊤ };

    fn hint(&mut self, p: u32) -> Option<Verdict>
        ensures none { result ≡ None }
        ensures true_verdict { (g : Graph) → ⊤ → p < process_count g
            → IfSome result (λ v. IsVerdict g p v) }
        ensures silent { ⊤ → result ≡ None }
        ensures asked { ⊤ }
        ensures kept { ⊤ }
    {
        let _ = self.list.push(p);
        None
    }

    ghost keeps_itself = { λ h. tt };

    ghost keeps_on = { λ a b c x y. tt };

    ghost keeps_graphs = { λ a b g x. ((λ y. tt), (λ y. tt)) };

    ghost keeps_silent = { λ a b x y. tt };

    ghost asks_nothing = { λ h. tt };

    ghost asks_on = { λ a b c first second x y. tt };
}

/// A run, and the processes that it asks about.
#[derive(Clone, Copy)]
struct Asking<'a> {
    waits: Waits<'a>,
    in_transit: &'a [(u32, u32)],
    initiator: u32,
    choices: &'a [u64],
    restarts: &'a [u32],
    asked: &'a [u32],
}

const OF_TWO: Asking = Asking {
    waits: &TWO_IN_A_CYCLE,
    in_transit: &[],
    initiator: 0,
    choices: &[],
    restarts: &[],
    asked: &[1],
};

const ASKING: [Asking; 9] = [
    OF_TWO,
    // One that waits for nobody is asked about, and the initiator never.
    Asking {
        waits: &[Some(&[1]), Some(&[])],
        ..OF_TWO
    },
    Asking {
        waits: &WAITS_FOR_ITSELF,
        asked: &[],
        ..OF_TWO
    },
    // No hint is asked about an active process, nor about one that is awake, nor again about one that is engaged.
    Asking {
        waits: &ONE_FREE_ONE_STUCK,
        ..OF_TWO
    },
    Asking {
        in_transit: &[(0, 1)],
        asked: &[],
        ..OF_TWO
    },
    Asking {
        waits: &KNOT_OF_THREE,
        asked: &[1, 2],
        ..OF_TWO
    },
    // Choices change the order alone.
    Asking {
        waits: &KNOT_OF_THREE,
        choices: &[1; 9],
        asked: &[2, 1],
        ..OF_TWO
    },
    // Each start asks anew. A query of an older number engages and asks where it comes first.
    Asking {
        restarts: &[0, 1],
        asked: &[1, 1, 1],
        ..OF_TWO
    },
    // Each computation is at rest after two deliveries.
    Asking {
        waits: &FREE_BY_TWO,
        initiator: 4,
        restarts: &[2, 4, 6, 8, 10, 12, 14, 16, 18, 20, 22, 24, 26, 28, 30, 32],
        asked: &[3; 17],
        ..OF_TWO
    },
];

/// The processes that the run asks about.
fn asks_in_order(alloc: Global, asking: &Asking) -> Result<Vec<u32>, RunFault> {
    let graph = graph_of(alloc, asking.waits, asking.in_transit)?;
    let mut hints = Asked {
        list: Vec::new(alloc),
    };
    run_again(
        alloc,
        &graph,
        asking.initiator,
        asking.choices,
        &mut hints,
        asking.restarts,
    )?;
    Ok(hints.list)
}

#[test]
fn once_for_each_engagement(rt: HostRuntime) -> Result<(), RunFault> {
    for (row, asking) in ASKING.iter().enumerate() {
        let asked = asks_in_order(rt.alloc(), asking)?;
        assert!(rt; asked.as_slice() == asking.asked, "at {row}");
    }
    Ok(())
}
