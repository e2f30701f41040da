// Worked examples, proved. There is nothing to run: the contract is their list.
#![tactic(auto)]

ghost use Rattle.worked.specs.Examples.{ExamplesHold};

#[tactic(auto, using(crate::proofs::Examples::examples))]
pub fn examples_hold()
    ensures { ExamplesHold }
{}
