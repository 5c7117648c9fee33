//! Worked examples.
mod askers;
mod directory;
mod refused_growths;
mod text;
