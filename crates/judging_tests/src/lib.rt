// Examples of batches that are judged.
#![tactic(auto)]

#[cfg(test)]
mod tests;
