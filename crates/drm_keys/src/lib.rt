//! Records in a slab under reused keys, enumerated in the order of their step numbers. Definitions are in `specs/`, and
//! lemmas for the crates that keep their records so.
#![tactic(auto)]
