//! Tests of the crates below the tree: names, POSIX and NFSv4 lists, and the bridge between them.
//!
//! They stand in a crate of their own, as callers of the public surface: what is tested is what any
//! caller may rest on, and the gate needn't prove each crate a second time beside its tests.
#![tactic(auto)]

#[cfg(test)]
mod bent;
#[cfg(test)]
mod bridge;
#[cfg(test)]
mod files;
#[cfg(test)]
mod names;
#[cfg(test)]
mod nfs4;
#[cfg(test)]
mod posix;
#[cfg(test)]
mod texts;
