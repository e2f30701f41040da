// How histories run where a sync edge is added, for all schemas that passed the checks. There is nothing to run: the contracts
// are the laws.
#![tactic(auto)]

ghost use Rattle.new_edges.specs.Laws.{DecisionsAreTold, AddingAnEdgeIsJudgedRightly};

#[tactic(auto, using(crate::proofs::Climbs::told))]
pub fn decisions_are_told()
    ensures { DecisionsAreTold }
{}

#[tactic(auto, using(crate::proofs::Judging::judged))]
pub fn adding_an_edge_is_judged_rightly()
    ensures { AddingAnEdgeIsJudgedRightly }
{}
