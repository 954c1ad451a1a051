use crate::key_name::KeyName;
use thiserror::Error;

/// What a switch offers to a program.
#[derive(Clone, Copy, Debug, PartialEq, Eq)]
pub struct Target {
    /// The stages of the pipeline, 1 to 64.
    pub stages: u8,
    /// The bits of register memory in each stage, at most 1000000000.
    pub memory_bits: u64,
    /// The stateful operations in each stage, at most 1024.
    pub stateful: u64,
    /// The stateless operations in each stage, at most 1024.
    pub stateless: u64,
    /// The bits of exact-match tables in each stage, at most 1000000000.
    pub table_bits: u64,
    /// The bits of ternary tables in each stage, at most 1000000000.
    pub ternary_bits: u64,
    /// The bits of all header and metadata fields together, at most 1000000.
    pub header_bits: u64,
    /// The operators of one unit, at most 64.
    pub ops: u32,
}

/// Why a text was not read as a target.
#[derive(Clone, Copy, Debug, PartialEq, Eq, Error)]
pub enum TargetError {
    /// The text is no TOML document.
    #[error("the text is no TOML document")]
    NotToml,
    /// The table has a key that no number of a target has.
    #[error("the table has a key that no number of a target has")]
    UnknownKey,
    /// The first of the keys that the table lacks.
    #[error("the key {key} is missing")]
    MissingKey { key: KeyName },
    /// The first of the keys whose value is no whole number in its range.
    #[error("the value of {key} is no whole number in its range")]
    OutOfRange { key: KeyName },
    /// There was no memory left.
    #[error("out of memory")]
    Memory,
}
