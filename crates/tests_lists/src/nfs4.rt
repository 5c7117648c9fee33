//! Worked examples.
mod access;
mod comparison;
mod fixture;
mod hostile;
mod inheritance;
mod longest;
mod masks;
mod mode;
mod refused_growths;
mod sizes;
mod text;
