//! Tests of the checker of placements, on placements that are made by hand. They stand in a crate of their own, since a crate that
//! has tests is proved twice.
#![tactic(auto)]

#[cfg(test)]
mod placements;
#[cfg(test)]
mod units;
