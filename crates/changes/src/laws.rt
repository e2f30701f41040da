// What changes mean for the tree of a row, for its nodes and for the sync edges. There is nothing to run: the contracts
// are the laws.
ghost use Rattle.changes.specs.Laws.{AnInsertFillsAGap, ADeleteTakesOutItsActivity, AnInsertBesideWrapsItems};
ghost use Rattle.changes.specs.Laws.{ActivitiesAreTold, ChangedRowsNest};
ghost use Rattle.changes.specs.Kept.{NodesRemainOrAreNew, IdsStayUnique, EdgesStayOrAreAdded};

#[tactic(auto, using(crate::proofs::Inserts::filled))]
pub fn an_insert_fills_a_gap()
    ensures { AnInsertFillsAGap }
{}

#[tactic(auto, using(crate::proofs::Deletes::taken_out))]
pub fn a_delete_takes_out_its_activity()
    ensures { ADeleteTakesOutItsActivity }
{}

#[tactic(auto, using(crate::proofs::Wraps::wrapped_up))]
pub fn an_insert_beside_wraps_items()
    ensures { AnInsertBesideWrapsItems }
{}

#[tactic(auto, using(crate::proofs::Activities::told))]
pub fn activities_are_told()
    ensures { ActivitiesAreTold }
{}

#[tactic(auto, using(crate::proofs::Nests::nests))]
pub fn changed_rows_nest()
    ensures { ChangedRowsNest }
{}

pub fn nodes_remain_or_are_new()
    ensures { NodesRemainOrAreNew }
{}

pub fn ids_stay_unique()
    ensures { IdsStayUnique }
{}

pub fn edges_stay_or_are_added()
    ensures { EdgesStayOrAreAdded }
{}
