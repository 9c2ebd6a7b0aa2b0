//! Tests of whole commands that no file of lines can say: calls that fail, runs that are killed, stops, limits,
//! words, and the making of volumes.
#![tactic(auto)]

#[cfg(test)]
mod batch_tests;
#[cfg(test)]
mod fault_tests;
#[cfg(test)]
mod kill_tests;
#[cfg(test)]
mod limit_tests;
#[cfg(test)]
mod making_tests;
#[cfg(test)]
mod many_tests;
#[cfg(test)]
mod word_tests;
