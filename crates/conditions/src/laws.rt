// What the conditions mean, in the words of the rules. There is nothing to run: the contract is the law.
ghost use Rattle.conditions.specs.Meaning.{HindrancesAreTold};

#[tactic(auto, using(crate::proofs::Judgements::told))]
pub fn hindrances_are_told()
    ensures { HindrancesAreTold }
{}
