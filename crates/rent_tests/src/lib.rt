// The month's rent, number fields and the input of the program `rent`, tried on examples and at their limits.
#![tactic(auto)]

#[cfg(test)]
mod input;
#[cfg(test)]
mod numbers;
#[cfg(test)]
mod rents;
