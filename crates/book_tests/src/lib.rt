// The book in set-up and in June, tried at its limits: each refusal at its edge and in its order, positions, and the terms of
// June.
#![tactic(auto)]

#[cfg(test)]
mod answering;
#[cfg(test)]
mod entering;
#[cfg(test)]
mod opening;
#[cfg(test)]
mod trading;
