//! The program that the README shows, and tests that cross crates. They stand beside the libraries, since a crate with tests is proved twice.
#![tactic(auto)]

#[cfg(test)]
mod hello;
#[cfg(test)]
mod tests;
