// What only grows along runs, for all schemas that passed the checks. There is nothing to run: the contracts are the laws.
ghost use Rattle.agreement.specs.Growth.{NodesWithFactsHaveTrueSignals, FactsAndSignalsOnlyGrow};

pub fn nodes_with_facts_have_true_signals()
    ensures { NodesWithFactsHaveTrueSignals }
{}

pub fn facts_and_signals_only_grow()
    ensures { FactsAndSignalsOnlyGrow }
{}
