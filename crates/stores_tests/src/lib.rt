// Worked examples of stores.
#![tactic(auto)]

#[cfg(test)]
mod tests;
