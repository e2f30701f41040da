// What a new activity does to the nodes that come next, for all schemas that passed the checks. There is nothing to run: the
// contracts are the laws.
#![tactic(auto)]

ghost use Rattle.halting.specs.Halts.{AnInsertHaltsFollowers, AnInsertBesideHaltsFollowers};

#[tactic(auto, using(crate::proofs::HaltedFollowers::insert_halts))]
pub fn an_insert_halts_followers()
    ensures { AnInsertHaltsFollowers }
{}

#[tactic(auto, using(crate::proofs::HaltedFollowers::insert_beside_halts))]
pub fn an_insert_beside_halts_followers()
    ensures { AnInsertBesideHaltsFollowers }
{}
