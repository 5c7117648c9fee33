//! Tests of the questions that administrators and auditors ask of trees.
//!
//! They stand in a crate of their own, as callers of the public surface: what is tested is what any
//! caller may rest on, and the gate needn't prove the crate a second time beside its tests.
#![tactic(auto)]

#[cfg(test)]
mod dump;
#[cfg(test)]
mod office;
