// How histories run on rows that were changed, for all schemas that passed the checks. There is nothing to run: the contracts
// are the laws.
#![tactic(auto)]

ghost use Rattle.row_runs.specs.Laws.{DroppingAnEdgeIsJudgedRightly, ADeleteIsJudgedRightly, AnInsertIsJudgedRightly, AnInsertBesideIsJudgedRightly};

#[tactic(auto, using(crate::proofs::Judged::dropped_rightly))]
pub fn dropping_an_edge_is_judged_rightly()
    ensures { DroppingAnEdgeIsJudgedRightly }
{}

#[tactic(auto, using(crate::proofs::Judged::deleted_rightly))]
pub fn a_delete_is_judged_rightly()
    ensures { ADeleteIsJudgedRightly }
{}

#[tactic(auto, using(crate::proofs::Judged::inserted_rightly))]
pub fn an_insert_is_judged_rightly()
    ensures { AnInsertIsJudgedRightly }
{}

#[tactic(auto, using(crate::proofs::Judged::beside_rightly))]
pub fn an_insert_beside_is_judged_rightly()
    ensures { AnInsertBesideIsJudgedRightly }
{}
