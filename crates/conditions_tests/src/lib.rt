// Worked examples of changes under running cases.
#![tactic(auto)]

#[cfg(test)]
mod tests;
