//! Worked examples.
mod access;
mod acl_text;
mod bits;
mod fixture;
mod hostile;
mod mode;
mod refused_growths;
mod sizes;
mod text;
mod validity;
