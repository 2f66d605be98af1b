//! The tests of the parts of a device: the examples in their doc comments, and calls that no script makes.
#![tactic(auto)]

#[cfg(test)]
mod examples;
#[cfg(test)]
mod handles;
#[cfg(test)]
mod master_calls;
#[cfg(test)]
mod masters;
#[cfg(test)]
mod objects;
