// The sources of readings tried on examples and at their limits.
#![tactic(auto)]

#[cfg(test)]
mod asked;
#[cfg(test)]
mod tests;
