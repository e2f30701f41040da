// Looking is replaying, for all schemas that passed the checks. There is nothing to run: the contract is the law.
#![tactic(auto)]

ghost use Rattle.looking.specs.Law.{LookingIsReplaying};

#[tactic(auto, using(crate::proofs::Replays::looks))]
pub fn looking_is_replaying()
    ensures { LookingIsReplaying }
{}
