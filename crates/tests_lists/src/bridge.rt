//! Tests of what stands between both styles of list.
mod comparison;
mod refused_growths;
mod sizes;
mod style;
