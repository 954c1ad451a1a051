//! For each variable the rows that name it.

ghost use Rattle.std.specs.Prelude.{◌≡◌, ◌++◌, ◌∷◌, ◌<◌, ◌≤◌, All, List, length, get_or, slice_set, [], IfOk, OnOk};
ghost use Rattle.int_program.specs.Limits.{most_rows, IsInLimits};
ghost use Rattle.branch_bound.specs.Columns.{entry_of, HaveRow, AreColumnsOf, AreColumns, AreEmpty};

use elx_bits::Items;
use int_program::{Ip, Part, Row};
use std::alloc::{AllocError, Global};
use std::marker::Model;

/// A row that names a variable, and the variable's coefficient there.
#[derive(Clone, Copy, Debug)]
pub(crate) struct Entry {
    pub(crate) row: u32,
    pub(crate) by: i128,
}

/// The entries of each variable.
#[derive(Drop)]
pub(crate) struct Columns {
    lists: Vec<Items<Entry>>,
}

impl Model for Columns {
    ghost use Rattle.std.specs.Prelude.{List};
    ghost use Rattle.branch_bound.specs.declared.columns.Entry.{Entry};

    ghost Value = { List (List Entry) };

    ghost view = { λ s. s.lists.items };
}

/// So many empty lists.
fn empty_lists(alloc: Global, count: usize) -> Result<Vec<Items<Entry>>, AllocError>
    ensures { IfOk result (λ lists. AreEmpty count lists.items) }
{
    let mut lists = Vec::new(alloc);
    for _ in 0..count {
        if lists.push(Items::new(alloc)).is_err() {
            return Err(AllocError);
        }
    }
    Ok(lists)
}

/// The entry of a part of a row.
fn named(row: u32, part: &Part) -> Entry
    ensures { result ≡ entry_of row part.now }
{
    Entry { row, by: part.by }
}

/// Adds the entry of a part of a row.
fn push_part(lists: &mut [Items<Entry>], row: u32, part: &Part) -> Result<(), AllocError>
    requires { part.now.var < length lists.old }
    ensures { OnOk result (lists.new ≡ slice_set lists.old part.now.var (get_or lists.old part.now.var [] ++ entry_of row part.now ∷ [])) }
{
    if lists[part.var as usize].push(named(row, part)).is_err() {
        return Err(AllocError);
    }
    Ok(())
}

/// Adds the entries of a row.
fn push_row(lists: &mut [Items<Entry>], row: u32, parts: &[Part]) -> Result<(), AllocError>
    requires { All (λ p. p.var < length lists.old) parts.now }
    ensures { OnOk result (HaveRow row parts.now lists.old lists.new) }
{
    for part in parts {
        push_part(lists, row, part)?;
    }
    Ok(())
}

/// Adds the entries of all rows to empty lists.
fn push_rows(lists: &mut [Items<Entry>], rows: &[Row]) -> Result<(), AllocError>
    requires empty { AreEmpty (length lists.old) lists.old }
    requires few { length rows.now ≤ most_rows }
    requires vars { All (λ row. All (λ p. p.var < length lists.old) row.parts) rows.now }
    ensures { OnOk result (AreColumnsOf (length lists.old) rows.now lists.new) }
{
    'rows: for i in 0..rows.len() {
        push_row(lists, i as u32, rows[i].parts.as_slice())?;
    }
    Ok(())
}

impl Columns {
    /// The columns of a program.
    pub(crate) fn new(alloc: Global, ip: &Ip) -> Result<Columns, AllocError>
        requires { IsInLimits ip.now }
        ensures { IfOk result (AreColumns ip.now) }
    {
        let mut lists = empty_lists(alloc, ip.tops.as_slice().len())?;
        push_rows(lists.as_mut_slice(), ip.rows.as_slice())?;
        Ok(Columns { lists })
    }

    /// The rows that name a variable.
    pub(crate) fn column(&self, var: u32) -> &[Entry]
        ensures { result.now ≡ get_or self.now var [] }
    {
        match self.lists.get(var as usize) {
            Some(list) => list.as_slice(),
            None => &[],
        }
    }
}
