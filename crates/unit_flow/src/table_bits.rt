//! The bits that tables take of a target.

ghost use Rattle.std.specs.Prelude.{◌≡◌, ◌+◌, Some, length, unwrap_or, IfOk};
ghost use Rattle.elastic_ast.specs.Seen.{seen_table};
ghost use Rattle.elastic_ast.specs.Typing.Types.{lval_type as lval_type_of, width_of_type};
ghost use Rattle.elastic_ast.specs.Units.Costs.{key_bits as key_bits_of, has_ternary as has_ternary_of, rows_by_keys};
ghost use Rattle.expr_types.specs.Scoped.{before_of};
ghost use Rattle.unit_parts.specs.SeenPieces.{seen_task};
ghost use Rattle.unit_flow.specs.TableBits.{AreBitsOf, AreBitsFor};

use elastic_ast::{Key, Table};
use expr_types::{Scope, Ty, lval_type};
use std::alloc::AllocError;
use unit_parts::Task;

/// The table bits and the ternary bits of a table.
#[derive(Clone, Copy)]
pub struct TableBits {
    pub table_bits: u64,
    pub ternary_bits: u64,
}

/// How many bits the field of a key has.
fn key_width(scope: &Scope<'_>, key: &Key) -> u8
    ensures { result ≡ width_of_type (lval_type_of (before_of scope.now) key.now.field) }
{
    match lval_type(scope, &key.field) {
        Ty::Bits(width) => width,
        Ty::Bare => 0,
        Ty::Truth => 0,
        Ty::Unknown => 0,
    }
}

/// How many bits the fields of keys have together. More than 64 bits hold count as want of memory.
fn key_bits(scope: &Scope<'_>, keys: &[Key]) -> Result<u64, AllocError>
    ensures { IfOk result (λ bits. bits ≡ key_bits_of (before_of scope.now) keys.now) }
{
    let mut bits = 0u64;
    for key in keys {
        let width = u64::from(key_width(scope, key));
        bits = bits.checked_add(width).ok_or(AllocError)?;
    }
    Ok(bits)
}

/// Whether one of the keys is ternary.
fn has_ternary(keys: &[Key]) -> bool
    ensures { result ≡ has_ternary_of keys.now }
{
    keys.iter().any(|key| key.ternary)
}

/// How many rows a table has room for: its size, or else the number of its entries.
fn rows(table: &Table) -> u64
    ensures { result ≡ unwrap_or table.now.size (length table.now.entries) }
{
    match table.size {
        Some(size) => u64::from(size),
        None => table.entries.as_slice().len() as u64,
    }
}

/// The bits of all rows of a table. More than 64 bits hold count as want of memory.
fn row_bits(scope: &Scope<'_>, table: &Table) -> Result<u64, AllocError>
    ensures { IfOk result (λ bits. bits ≡ rows_by_keys (before_of scope.now) (seen_table table.now)) }
{
    let bits = key_bits(scope, table.keys.as_slice())?;
    rows(table).checked_mul(bits).ok_or(AllocError)
}

/// The bits of a table: with a ternary key it has twice as many ternary bits, and no table bits.
fn table_bits(scope: &Scope<'_>, table: &Table) -> Result<TableBits, AllocError>
    ensures { IfOk result (AreBitsOf (before_of scope.now) (Some (seen_table table.now))) }
{
    let bits = row_bits(scope, table)?;
    if has_ternary(table.keys.as_slice()) {
        let twice = bits.checked_add(bits).ok_or(AllocError)?;
        return Ok(TableBits {
            table_bits: 0,
            ternary_bits: twice,
        });
    }
    Ok(TableBits {
        table_bits: bits,
        ternary_bits: 0,
    })
}

/// The bits of the table that a piece applies: none, where it applies none.
pub fn bits_of(scope: &Scope<'_>, task: Task<'_>) -> Result<TableBits, AllocError>
    ensures { IfOk result (AreBitsFor (before_of scope.now) (seen_task task.entry)) }
{
    let table = match task {
        Task::Apply(name) => scope.table(name),
        Task::Plain(_) | Task::Call(_) | Task::Pred { .. } => None,
    };
    match table {
        Some(table) => table_bits(scope, table),
        None => Ok(TableBits {
            table_bits: 0,
            ternary_bits: 0,
        }),
    }
}
