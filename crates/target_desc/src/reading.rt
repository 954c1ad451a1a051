ghost use Rattle.std.specs.Prelude.{◌≡◌, IfOk, string_bytes, option_and_then};
ghost use Rattle.std.specs.BTreeMap.{keys};
ghost use Rattle.std.specs.List.{find, list_all};
ghost use Rattle.toml.specs.Data.{as_integer, get_member};
ghost use Rattle.toml.specs.View.{table_view};
ghost use Rattle.target_desc.specs.InRange.{IsInRange};
ghost use Rattle.target_desc.specs.TargetKeys.{target_keys};
ghost use Rattle.target_desc.specs.TargetText.{AreNumbersFound, IsNumberBetween, IsNumberFound, IsTargetFound};
ghost use Rattle.target_desc.specs.TargetText.{ReadsTarget, has_no_other_key, is_key, lacks};
ghost use Rattle.target_desc.specs.declared.target.Target.{Target};
ghost use Rattle.target_desc.specs.OneTarget.{DescribesAtMostOne};

use crate::key_name::KeyName;
use crate::target::{Target, TargetError};
use std::alloc::Global;
use toml::Table;

/// The keys of a target's numbers, in the order in which they are looked at.
const KEYS: [KeyName; 8] = [
    KeyName::Stages,
    KeyName::MemoryBits,
    KeyName::Stateful,
    KeyName::Stateless,
    KeyName::TableBits,
    KeyName::TernaryBits,
    KeyName::HeaderBits,
    KeyName::Ops,
];

/// Reads the description of a target: a TOML document in UTF-8 with the eight keys of a target, each with a whole
/// number in its range, and no other key.
///
/// NotToml comes where the text is no such document, and then, in this order, UnknownKey where its table has another key,
/// MissingKey with the first key that it lacks, and OutOfRange with the first key whose value is no whole number in its
/// range. Memory comes only for want of memory.
pub fn read(alloc: Global, text: &[u8]) -> Result<Target, TargetError>
    ensures reads { ReadsTarget text.now result }
    ensures ranges { IfOk result IsInRange }
{
    match toml::table_from_slice(alloc, text) {
        Ok(table) => target_of(&table),
        Err(error) if error.is_memory() => Err(TargetError::Memory),
        Err(_) => Err(TargetError::NotToml),
    }
}

/// One text describes at most one target. It holds of the definitions, and takes no step.
pub fn at_most_one_target()
    ensures { DescribesAtMostOne }
{}

fn target_of(table: &Table) -> Result<Target, TargetError>
    ensures { IsTargetFound (table_view table.now) result }
{
    if !has_no_other_key(table) {
        return Err(TargetError::UnknownKey);
    }
    if let Some(key) = first_missing(table) {
        return Err(TargetError::MissingKey { key });
    }
    numbers_of(table)
}

fn numbers_of(table: &Table) -> Result<Target, TargetError>
    ensures { AreNumbersFound (table_view table.now) result }
{
    let stages = number_at(table, KeyName::Stages)?;
    let memory_bits = number_at(table, KeyName::MemoryBits)?;
    let stateful = number_at(table, KeyName::Stateful)?;
    let stateless = number_at(table, KeyName::Stateless)?;
    let table_bits = number_at(table, KeyName::TableBits)?;
    let ternary_bits = number_at(table, KeyName::TernaryBits)?;
    let header_bits = number_at(table, KeyName::HeaderBits)?;
    let ops = number_at(table, KeyName::Ops)?;
    Ok(Target {
        stages: stages as u8,
        memory_bits,
        stateful,
        stateless,
        table_bits,
        ternary_bits,
        header_bits,
        ops: ops as u32,
    })
}

/// The whole number at a key, where it is in the key's range.
fn number_at(table: &Table, key: KeyName) -> Result<u64, TargetError>
    ensures { IsNumberFound (table_view table.now) key result }
{
    match number_between(integer_at(table, key.text()), key.least(), key.most()) {
        Some(number) => Ok(number),
        None => Err(TargetError::OutOfRange { key }),
    }
}

/// A whole number from `least` to `most`.
fn number_between(found: Option<i64>, least: u64, most: u64) -> Option<u64>
    ensures { IsNumberBetween least most found result }
{
    let number = u64::try_from(found?).ok()?;
    if least <= number && number <= most {
        Some(number)
    } else {
        None
    }
}

fn integer_at(table: &Table, key: &str) -> Option<i64>
    ensures { result ≡ option_and_then as_integer (get_member key.now (table_view table.now)) }
{
    match table.get(key) {
        Some(value) => value.as_integer(),
        None => None,
    }
}

/// The first key that a table lacks.
fn first_missing(table: &Table) -> Option<KeyName>
    ensures { result ≡ find (lacks (table_view table.now)) target_keys }
{
    KEYS.iter().copied().find(|key| lacks(table, *key))
}

fn lacks(table: &Table, key: KeyName) -> bool
    ensures { result ≡ lacks (table_view table.now) key }
{
    match table.get(key.text()) {
        Some(_) => false,
        None => true,
    }
}

fn has_no_other_key(table: &Table) -> bool
    ensures { result ≡ has_no_other_key (table_view table.now) }
{
    all_keys_known(table)
}

fn all_keys_known(table: &Table) -> bool
    ensures { result ≡ list_all (λ key. is_key (string_bytes key)) (keys table.now) }
{
    table.keys().all(|key| is_key(key.as_str()))
}

fn is_key(text: &str) -> bool
    ensures { result ≡ is_key text.now }
{
    KEYS.iter().any(|key| text == key.text())
}

#[cfg(test)]
mod tests {
    use super::*;

    #[test]
    fn a_text_with_the_eight_keys_in_range_is_read(rt: HostRuntime) {
        let text =
            b"stages = 1\nmemory_bits = 1024\nstateful = 2\nstateless = 8\ntable_bits = 1024\nternary_bits = 1024\nheader_bits = 64\nops = 8\n";
        let target = Target {
            stages: 1,
            memory_bits: 1024,
            stateful: 2,
            stateless: 8,
            table_bits: 1024,
            ternary_bits: 1024,
            header_bits: 64,
            ops: 8,
        };
        assert_eq!(rt; read(rt.alloc(), text), Ok(target));
    }

    #[test]
    fn every_other_text_is_refused_for_its_first_cause(rt: HostRuntime) {
        let rest =
            "memory_bits = 1024\nstateful = 2\nstateless = 8\ntable_bits = 1024\nternary_bits = 1024\nheader_bits = 64\n";
        let missing = |key| TargetError::MissingKey { key };
        let outside = |key| TargetError::OutOfRange { key };
        for (first, last, why) in [
            ("stages = 1\n", "", missing(KeyName::Ops)),
            ("", "", missing(KeyName::Stages)),
            ("", "ops = 65\n", missing(KeyName::Stages)),
            (
                "stages = 1\n",
                "ops = 8\nspare = 1\n",
                TargetError::UnknownKey,
            ),
            ("stages = 65\n", "spare = 1\n", TargetError::UnknownKey),
            ("stages = 0\n", "ops = 8\n", outside(KeyName::Stages)),
            ("stages = 65\n", "ops = 65\n", outside(KeyName::Stages)),
            ("stages = -1\n", "ops = 8\n", outside(KeyName::Stages)),
            ("stages = 1.0\n", "ops = 8\n", outside(KeyName::Stages)),
            ("stages = \"1\"\n", "ops = 8\n", outside(KeyName::Stages)),
            ("stages = 1\n", "ops = 65\n", outside(KeyName::Ops)),
            (
                "stages = 1\nstages = 1\n",
                "ops = 8\n",
                TargetError::NotToml,
            ),
            ("stages = \n", "ops = 8\n", TargetError::NotToml),
        ] {
            let text = format!(in rt.alloc(); "{first}{rest}{last}").expect(&rt, "memory");
            assert_eq!(rt;
                read(rt.alloc(), text.as_bytes()),
                Err(why),
                "{first}{last}"
            );
        }
        assert_eq!(rt;
            read(rt.alloc(), b"# \xff\n"),
            Err(TargetError::NotToml),
            "no UTF-8"
        );
    }
}
