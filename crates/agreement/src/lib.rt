// Laws of runs, for all schemas that passed the checks. There is nothing to run: the contracts are the laws.
#![tactic(auto)]

pub mod false_gaps;
pub mod growth;

ghost use Rattle.agreement.specs.Laws.{FactsDependOnEntriesAlone, BlocksEndFalseAsTheyBegin, ARunHasEachStepOnce, ARunIsShort};

#[tactic(auto, using(crate::proofs::FactsAfter::after_entries))]
pub fn facts_depend_on_entries_alone()
    ensures { FactsDependOnEntriesAlone }
{}

#[tactic(auto, using(marking::proofs::FalseBlocks::ends_false, marking::proofs::FalseBlocks::after_false))]
pub fn blocks_end_false_as_they_begin()
    ensures { BlocksEndFalseAsTheyBegin }
{}

#[tactic(auto, using(crate::proofs::Progress::each_once))]
pub fn a_run_has_each_step_once()
    ensures { ARunHasEachStepOnce }
{}

#[tactic(auto, using(crate::proofs::Lengths::short))]
pub fn a_run_is_short()
    ensures { ARunIsShort }
{}
