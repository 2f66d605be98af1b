//! The tests of maps from numbers and of what allocates numbers: tables of cases, and random calls next to a plain list.
#![tactic(auto)]

#[cfg(test)]
mod arrays;
#[cfg(test)]
mod examples;
#[cfg(test)]
mod number_groups;
#[cfg(test)]
mod number_tables;
#[cfg(test)]
mod numbers;
#[cfg(test)]
mod plain_map;
#[cfg(test)]
mod plain_table;
