// What a draft admits leaves a schema that passes the checks again. There is nothing to run: the contracts are the laws.
ghost use Rattle.draft_rules.specs.Laws.{AnAdmissibleChangePassesAgain, AdmittedChangesPassAgain};

#[tactic(auto, using(crate::proofs::SchemasPassAgain::pass_again))]
pub fn an_admissible_change_passes_again()
    ensures { AnAdmissibleChangePassesAgain }
{}

pub fn admitted_changes_pass_again()
    ensures { AdmittedChangesPassAgain }
{}
