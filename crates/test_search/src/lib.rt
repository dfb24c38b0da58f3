//! Tests of the crates `cover`, `clean`, `analyse` and `search`.
#![tactic(auto)]

#[cfg(test)]
mod analyse_tests;
#[cfg(test)]
mod cover_tests;
#[cfg(test)]
mod group_tests;
