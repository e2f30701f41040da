// Worked examples of runs and markings.
#![tactic(auto)]

#[cfg(test)]
mod tests;
