//! Tests of the binary forms of lists, whose bytes are written here by hand.
#![tactic(auto)]

#[cfg(test)]
mod names;
#[cfg(test)]
mod nfs4;
#[cfg(test)]
mod posix;
