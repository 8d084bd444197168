//! The tests of what no command shows of values, of the machines, of shared accounts and of runs.
//! They are apart, so that none of these crates is proved a second time for its tests.
#![tactic(auto)]

#[cfg(test)]
mod answers;
#[cfg(test)]
mod failing;
#[cfg(test)]
mod looking;
#[cfg(test)]
mod machines;
#[cfg(test)]
mod making;
#[cfg(test)]
mod plans;
#[cfg(test)]
mod running;
#[cfg(test)]
mod sharing;
#[cfg(test)]
mod values;
