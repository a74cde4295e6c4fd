//! How many sites processes are on.

ghost use Rattle.std.specs.Prelude.{◌≡◌, ◌<◌, All, IfOk};
ghost use Rattle.cmh_graph.specs.Graph.{process_count};
ghost use Rattle.cmh_text.specs.Report.{site_count};
ghost use Rattle.cmh_text.specs.Sites.{AreSitesBelow};

use cmh_graph::{MAX_PROCESSES, WaitGraph};
use cmh_memory::{Allocated, Need, copies};
use std::alloc::Global;
use std::collections::HashSet;
use std::marker::Model;

/// The sites of a wait graph.
#[derive(Drop)]
pub(crate) struct Sites<'a> {
    graph: &'a WaitGraph,
    /// One more than the greatest site.
    bound: usize,
}

impl<'a> Model for Sites<'a> {
    ghost use Rattle.cmh_graph.specs.Graph.{Graph};
    ghost use Rattle.cmh_text.specs.Sites.{AreSitesBelow};

    ghost Value = { Graph };

    ghost view = { λ s. s.graph.now };

    ghost invariant = { λ s. AreSitesBelow s.graph.now s.bound };
}

/// What has a mark for each site, of which there are few.
impl<'s, 'a> Need for &'s Sites<'a> {
    ghost use Rattle.cmh_graph.specs.declared.TheConstants.{MAX_PROCESSES};

    ghost needed = { λ _. MAX_PROCESSES };
}

impl<'a> Sites<'a> {
    /// Looks at the site of each process.
    pub(crate) fn new(graph: &'a WaitGraph) -> Sites<'a>
        ensures { result ≡ graph.now }
    {
        Sites {
            graph,
            bound: site_bound(graph),
        }
    }

    /// How many different sites the processes are on, by a mark for each site below the bound, which costs least. Where
    /// all of them are marked it stops.
    pub(crate) fn count(&self, alloc: Global, list: &[u32]) -> Allocated<usize>
        requires { All (λ p. p < process_count self.now) list.now }
        ensures { IfOk result (λ count. count ≡ site_count self.now list.now) }
    {
        if self.bound > MAX_PROCESSES {
            return self.count_hashed(alloc, list);
        }
        let mut seen = copies(alloc, false, self.bound, self)?;
        let mut sites = Vec::new(alloc);
        for p in list {
            if sites.len() == self.bound {
                return Ok(self.bound);
            }
            let site = self.graph.site(*p);
            if !seen[site as usize] {
                seen[site as usize] = true;
                sites.push(site)?;
            }
        }
        Ok(sites.len())
    }

    /// The same by a set, where the numbers of sites are great.
    fn count_hashed(&self, alloc: Global, list: &[u32]) -> Allocated<usize>
        requires { All (λ p. p < process_count self.now) list.now }
        ensures { IfOk result (λ count. count ≡ site_count self.now list.now) }
    {
        let graph = self.graph;
        let sites: HashSet<u32> = list.iter().map(|p| graph.site(*p)).collect(alloc)?;
        Ok(sites.len())
    }
}

/// One more than the greatest site of all processes.
fn site_bound(graph: &WaitGraph) -> usize
    ensures { AreSitesBelow graph.now result }
{
    let mut bound = 0usize;
    for p in 0..graph.len() {
        bound = bound.max(graph.site(p) as usize + 1);
    }
    bound
}
