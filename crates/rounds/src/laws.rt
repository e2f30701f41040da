// A finished round of a loop, for all schemas that passed the checks. There is nothing to run: the contracts are the laws.
ghost use Rattle.rounds.specs.Laws.{ARoundIsTheLoopsBody, AFinishedRoundCanBeDropped, ARoundIsForgotten};

#[tactic(auto, using(crate::proofs::RoundRows::body_found))]
pub fn a_round_is_the_loops_body()
    ensures { ARoundIsTheLoopsBody }
{}

#[tactic(auto, using(crate::proofs::DroppedRounds::finished_dropped))]
pub fn a_finished_round_can_be_dropped()
    ensures { AFinishedRoundCanBeDropped }
{}

pub fn a_round_is_forgotten()
    ensures { ARoundIsForgotten }
{}
