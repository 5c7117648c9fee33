//! Tests of the accounts of a host, and of names as `getfacl` writes them.
#![tactic(auto)]

#[cfg(test)]
mod faults;
#[cfg(test)]
mod host;
#[cfg(test)]
mod names;
#[cfg(test)]
mod refused_growths;
#[cfg(test)]
mod sizes;
