//! Tests of the reader of listings of real files.
//!
//! They stand in a crate of their own, as callers of the public surface: what is tested is what any
//! caller may rest on, and the gate needn't prove the crate a second time beside its tests.
#![tactic(auto)]

#[cfg(test)]
mod blocks;
#[cfg(test)]
mod faults;
#[cfg(test)]
mod files;
#[cfg(test)]
mod forms;
#[cfg(test)]
mod guesses;
#[cfg(test)]
mod lines;
#[cfg(test)]
mod readers;
#[cfg(test)]
mod refused_growths;
#[cfg(test)]
mod reported;
#[cfg(test)]
mod shown;
#[cfg(test)]
mod sizes;
