//! Worked examples.
mod commands;
mod examples;
mod fixture;
mod hostile;
mod lines;
mod printed;
mod refused_growths;
mod sizes;
mod texts;
