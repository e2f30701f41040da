// Which decision makes a gap false, for all schemas that passed the checks. There is nothing to run: the contract is the law.
ghost use Rattle.agreement.specs.FalseGaps.{GapsAreFalseByOneDecision};

pub fn gaps_are_false_by_one_decision()
    ensures { GapsAreFalseByOneDecision }
{}
