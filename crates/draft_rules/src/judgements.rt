// Each answer to a change is given exactly if its cause holds and no earlier one does. There is nothing to run: the
// contract is the law.
ghost use Rattle.draft_rules.specs.Laws.{ChangesAreJudgedRightly};

pub fn changes_are_judged_rightly()
    ensures { ChangesAreJudgedRightly }
{}
