// What a draft takes is exactly what the rules for changes admit. There is nothing to run: the contract is the law.
#![tactic(auto)]

ghost use Rattle.admission.specs.Laws.{DraftsTakeWhatIsAdmitted};

#[tactic(auto, using(crate::proofs::Taken::takes_what_is_admitted))]
pub fn drafts_take_what_is_admitted()
    ensures { DraftsTakeWhatIsAdmitted }
{}
