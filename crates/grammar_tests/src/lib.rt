//! Tests of the lexer and the parsers, in one place: the gate proves a crate that has tests twice.
#![tactic(auto)]

#[cfg(test)]
mod declarations;
#[cfg(test)]
mod expressions;
#[cfg(test)]
mod outlines;
#[cfg(test)]
mod programs;
#[cfg(test)]
mod tables;
#[cfg(test)]
mod tokens;
