//! Tests of the shell of all commands, and of why lists decide as they do.
//!
//! They stand in a crate of their own, as callers of the public surface: what is tested is what any
//! caller may rest on, and the gate needn't prove each crate a second time beside its tests.
//! What commands answer is tried on the program, by the cases in `crates/aclctl/cases`.
#![tactic(auto)]

#[cfg(test)]
mod error_output;
#[cfg(test)]
mod explanation;
#[cfg(test)]
mod input;
#[cfg(test)]
mod output;
#[cfg(test)]
mod refused_growths;
#[cfg(test)]
mod words;
