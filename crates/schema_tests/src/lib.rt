// Examples and boundaries of the checks of a schema.
#![tactic(auto)]

#[cfg(test)]
mod tests;
