//! Tests of whole commands on images that no line makes: counters at their ends, single bytes that differ, rows and pages at any place,
//! a volume in a real file, and a deletion that stops in the middle.
#![tactic(auto)]

#[cfg(test)]
mod counter_tests;
#[cfg(test)]
mod deleting_tests;
#[cfg(test)]
mod file_tests;
#[cfg(test)]
mod image_tests;
#[cfg(test)]
mod scattered_tests;
#[cfg(test)]
mod tape;
