ghost use Rattle.std.specs.Prelude.{◌≡◌, Some};
ghost use Rattle.target_desc.specs.TargetKeys.{key_text, least_at, most_at};

use std::fmt;

/// A key of a target's description.
#[derive(Clone, Copy, Debug, PartialEq, Eq)]
pub enum KeyName {
    Stages,
    MemoryBits,
    Stateful,
    Stateless,
    TableBits,
    TernaryBits,
    HeaderBits,
    Ops,
}

/// The most stages of a target.
const MOST_STAGES: u64 = 64;

/// The most bits of each kind of memory in a stage.
const MOST_STAGE_BITS: u64 = 1_000_000_000;

/// The most actions of each kind in a stage.
const MOST_STAGE_ACTIONS: u64 = 1024;

const MOST_HEADER_BITS: u64 = 1_000_000;

/// The most operators of a unit.
const MOST_UNIT_OPERATORS: u64 = 64;

impl KeyName {
    /// The key as it stands in a description.
    pub fn text(self) -> &'static str
        ensures { result.now ≡ key_text self }
    {
        match self {
            KeyName::Stages => "stages",
            KeyName::MemoryBits => "memory_bits",
            KeyName::Stateful => "stateful",
            KeyName::Stateless => "stateless",
            KeyName::TableBits => "table_bits",
            KeyName::TernaryBits => "ternary_bits",
            KeyName::HeaderBits => "header_bits",
            KeyName::Ops => "ops",
        }
    }

    /// The least number at the key.
    pub fn least(self) -> u64
        ensures { result ≡ least_at self }
    {
        match self {
            KeyName::Stages => 1,
            _ => 0,
        }
    }

    /// The greatest number at the key.
    pub fn most(self) -> u64
        ensures { result ≡ most_at self }
    {
        match self {
            KeyName::Stages => MOST_STAGES,
            KeyName::MemoryBits | KeyName::TableBits | KeyName::TernaryBits => MOST_STAGE_BITS,
            KeyName::Stateful | KeyName::Stateless => MOST_STAGE_ACTIONS,
            KeyName::HeaderBits => MOST_HEADER_BITS,
            KeyName::Ops => MOST_UNIT_OPERATORS,
        }
    }
}

impl fmt::Display for KeyName {
    ghost use Rattle.std.specs.Prelude.{Some};
    ghost use Rattle.target_desc.specs.TargetKeys.{key_text};

    ghost output = { λ name. Some (key_text name) };

    fn fmt<W: fmt::Write>(&self, f: &mut fmt::Formatter<W>) -> fmt::Result {
        f.write_str(self.text())
    }
}
