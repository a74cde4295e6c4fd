//! The lines of groups, each by the graph and what the line before has left.

ghost use Rattle.std.specs.Prelude.{◌≡◌, ◌<◌, All, Contains, IfOk, IfSome, IsTrue, flat_map, map, string_bytes};
ghost use Rattle.cmh_graph.specs.Core.{core_of, leaders, rest_of};
ghost use Rattle.cmh_graph.specs.Graph.{indices, process_count};
ghost use Rattle.cmh_graph.specs.Path.{Reaches, reach_of, reaches};
ghost use Rattle.cmh_text.specs.Group.{AreGroupsOf};
ghost use Rattle.cmh_text.specs.LeaderReach.{AreGroupPartsOf, IsBaseFor, IsLeaderReachOf};
ghost use Rattle.cmh_text.specs.Report.{line, group_line, site_count};

use crate::backward_text::BackwardText;
use crate::groups::{Group, Groups, core_and_rest, is_led_by};
use crate::leader_reach::{GroupParts, LeaderReach, has_one_more, parts_beyond, reach_of};
use crate::lines::{push_alone, push_group};
use crate::names::LastNames;
use crate::sites::Sites;
use cmh_graph::WaitGraph;
use cmh_memory::Allocated;
use cmh_stream::Pieces;
use std::alloc::Global;
use std::marker::Model;

/// What the lines of groups are made of.
#[derive(Drop)]
pub(crate) struct GroupLines<'a> {
    graph: &'a WaitGraph,
    groups: &'a Groups,
    /// What the leader of the greatest group reaches, if there is one.
    shared: &'a Option<LeaderReach>,
    sites: Sites<'a>,
    /// What the leader of the last line that was searched reaches.
    last_reach: Option<LeaderReach>,
    last_names: LastNames<'a>,
}

impl<'a> Model for GroupLines<'a> {
    ghost use Rattle.cmh_graph.specs.Graph.{Graph};

    ghost Value = { Graph };

    ghost use Rattle.cmh_text.specs.GroupLines.{AreMadeForGroups};

    ghost view = { λ l. l.graph.now };

    ghost invariant = { AreMadeForGroups };
}

impl<'a> GroupLines<'a> {
    /// No line yet, which takes no memory.
    pub(crate) fn new(
        alloc: Global,
        graph: &'a WaitGraph,
        groups: &'a Groups,
        shared: &'a Option<LeaderReach>,
    ) -> GroupLines<'a>
        requires groups { AreGroupsOf graph.now groups.now }
        requires shared { IfSome shared.now (IsLeaderReachOf graph.now) }
        ensures { result ≡ graph.now }
    {
        GroupLines {
            graph,
            groups,
            shared,
            sites: Sites::new(graph),
            last_reach: None,
            last_names: LastNames::new(alloc, graph),
        }
    }

    /// The lines of the groups of these leaders.
    pub(crate) fn text_of(&mut self, alloc: Global, chunk: &[u32]) -> Allocated<Pieces>
        requires { All (Contains (leaders self.old)) chunk.now }
        ensures { IfOk result (λ text.
            text ≡ flat_map (λ p. line (group_line self.old p)) chunk.now) }
    {
        let mut text = BackwardText::new(alloc);
        for n in (0..chunk.len()).rev() {
            let line = self.line_of(alloc, chunk[n])?;
            text.push(alloc, line)?;
        }
        text.into_pieces(alloc)
    }

    /// The line of the group of a leader.
    fn line_of(&mut self, alloc: Global, leader: u32) -> Allocated<String>
        requires { Contains (leaders self.old) leader }
        ensures same { self.new ≡ self.old }
        ensures text { IfOk result (λ text. string_bytes text ≡ line (group_line self.old leader)) }
    {
        let mut text = String::new(alloc);
        let number = self.groups.numbers[leader as usize];
        if self.graph.dependents(leader).is_empty() {
            push_alone(&mut text, self.graph.name(leader), number)?;
            return Ok(text);
        }
        let (group, reach) = self.group_of(alloc, leader)?;
        self.last_reach = Some(reach);
        push_group(alloc, &mut text, number, &group, &mut self.last_names)?;
        Ok(text)
    }

    /// The group of a leader, and what the leader reaches.
    fn group_of(&self, alloc: Global, leader: u32) -> Allocated<(Group, LeaderReach)>
        requires { Contains (leaders self.now) leader }
        ensures core { IfOk result (λ made. made.0.core.items ≡ core_of self.now leader) }
        ensures rest { IfOk result (λ made. made.0.rest.items ≡ rest_of self.now leader) }
        ensures sites { IfOk result (λ made.
            made.0.site_count ≡ site_count self.now (reach_of self.now leader)) }
        ensures reach { IfOk result (λ made. IsLeaderReachOf self.now made.1) }
    {
        let GroupParts {
            leader_reach,
            core,
            rest,
        } = self.parts_of(alloc, leader)?;
        let site_count = self.sites.count(alloc, &leader_reach.reach)?;
        let group = Group {
            core,
            rest,
            site_count,
        };
        Ok((group, leader_reach))
    }

    /// The parts of a leader. The graph is searched once, but for what the base reaches.
    fn parts_of(&self, alloc: Global, leader: u32) -> Allocated<GroupParts>
        requires { Contains (leaders self.now) leader }
        ensures { IfOk result (AreGroupPartsOf self.now leader) }
    {
        match self.find_base(leader) {
            Some(base) => self.parts_from(alloc, leader, base),
            None => {
                let marks = self.graph.reach_marks(alloc, leader)?;
                self.parts_by(alloc, leader, marks)
            }
        }
    }

    /// The parts of a leader that reaches another one. The search continues from what that one reaches.
    fn parts_from(&self, alloc: Global, leader: u32, base: &LeaderReach) -> Allocated<GroupParts>
        requires leads { Contains (leaders self.now) leader }
        requires base { IsBaseFor self.now leader base.now }
        ensures { IfOk result (AreGroupPartsOf self.now leader) }
    {
        let marks = self
            .graph
            .reach_marks_by(alloc, leader, base.leader, &base.marks)?;
        if has_one_more(leader, &base.marks, &marks) {
            return parts_beyond(alloc, self.graph, leader, base, marks);
        }
        self.parts_by(alloc, leader, marks)
    }

    /// The parts of a leader with these marks.
    fn parts_by(&self, alloc: Global, leader: u32, marks: Vec<bool>) -> Allocated<GroupParts>
        requires leads { Contains (leaders self.now) leader }
        requires marks { marks.items ≡ map (reaches self.now leader) (indices self.now) }
        ensures { IfOk result (AreGroupPartsOf self.now leader) }
    {
        let reach = reach_of(alloc, self.graph, leader, &marks)?;
        let (core, rest) = core_and_rest(alloc, &self.groups.summaries, leader, &reach)?;
        Ok(GroupParts {
            leader_reach: LeaderReach {
                leader,
                marks,
                reach,
            },
            core,
            rest,
        })
    }

    /// The reach from which the search for that of a leader can continue, if there is one: that of the last search, or of
    /// the greatest group.
    fn find_base(&self, leader: u32) -> Option<&LeaderReach>
        requires { leader < process_count self.now }
        ensures { IfSome result (λ base. IsBaseFor self.now leader base.now) }
    {
        if let Some(known) = &self.last_reach {
            if self.waits_for(leader, known.leader) {
                return Some(known);
            }
        }
        if let Some(known) = self.shared {
            if self.waits_for(leader, known.leader) {
                return Some(known);
            }
        }
        None
    }

    /// Whether a process has a dependent in the group of that leader.
    fn waits_for(&self, p: u32, leader: u32) -> bool
        requires { p < process_count self.now }
        ensures { IsTrue result → Reaches self.now p leader }
    {
        for q in self.graph.dependents(p) {
            if is_led_by(&self.groups.summaries, leader, *q) {
                return true;
            }
        }
        false
    }
}
