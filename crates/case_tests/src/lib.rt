// Worked examples of cases.
#![tactic(auto)]

#[cfg(test)]
mod moves;
#[cfg(test)]
mod tests;
