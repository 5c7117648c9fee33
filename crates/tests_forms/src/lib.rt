//! Tests of the forms in which tools print NFSv4 lists.
#![tactic(auto)]

#[cfg(test)]
mod entries;
#[cfg(test)]
mod forms;
#[cfg(test)]
mod named;
#[cfg(test)]
mod refused_growths;
#[cfg(test)]
mod sizes;
#[cfg(test)]
mod tools;
