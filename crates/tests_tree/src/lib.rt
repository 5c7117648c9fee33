//! Tests of the tree and of the language of its commands.
//!
//! They stand in a crate of their own, as callers of the public surface: what is tested is what any
//! caller may rest on, and the gate needn't prove each crate a second time beside its tests.
#![tactic(auto)]

#[cfg(test)]
mod lang;
#[cfg(test)]
mod lists;
#[cfg(test)]
mod tree;
