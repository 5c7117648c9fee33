//! Tests of the service: sessions in rounds and in threads, and runs of texts.
//!
//! They stand in a crate of their own, as callers of the public surface: what is tested is what any
//! caller may rest on, and the gate needn't prove each crate a second time beside its tests.
//! What `run` answers is tried on the program, by the cases in `crates/aclctl/cases/sessions`.
#![tactic(auto)]

#[cfg(test)]
mod fixture;
#[cfg(test)]
mod gates;
#[cfg(test)]
mod refused_growths;
#[cfg(test)]
mod rounds;
#[cfg(test)]
mod run_texts;
#[cfg(test)]
mod serve;
#[cfg(test)]
mod texts;
