//! Tests of the broker: worked examples, over a small service whose replies report the order of its
//! requests.
//!
//! They stand in a crate of their own, as callers of the public surface: what is tested is what any
//! caller may rest on, and the gate needn't prove each crate a second time beside its tests.
#![tactic(auto)]

#[cfg(test)]
mod acts;
#[cfg(test)]
mod fixture;
#[cfg(test)]
mod on_one_thread;
#[cfg(test)]
mod refused_growths;
#[cfg(test)]
mod split;
#[cfg(test)]
mod threads;
