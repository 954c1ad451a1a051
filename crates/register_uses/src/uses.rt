//! How the units of work so far use each register.

ghost use Rattle.std.specs.Prelude.{◌≡◌, OnOk, Some, if◌then◌else◌};
ghost use Rattle.register_uses.specs.declared.uses.Use.TheVariants as usage;
ghost use Rattle.register_uses.specs.Walks.{AddsPlain, MarksBody, MarksStmt, Notes};

use crate::summary::register_of;
use elastic_ast::Stmt;
use elx_bits::Name;
use indexmap::IndexMap;
use std::alloc::AllocError;

/// How the units so far use a register that one of them names.
#[derive(Clone, Copy)]
pub enum Use {
    /// One unit names it, and no other register.
    Once { looped: bool },
    /// Two units name it, or one does beside another register.
    Twice,
}

/// What a register's use becomes by one more.
fn one_more(known: bool, more: Use) -> Use
    ensures { result ≡ (if known then usage.Twice else more) }
{
    if known { Use::Twice } else { more }
}

/// Counts one more use of a register.
pub fn note<'a>(
    uses: &mut IndexMap<&'a [u8], Use>,
    name: &'a Name,
    more: Use,
) -> Result<(), AllocError>
    ensures { OnOk result (Notes uses.old.entries uses.new.entries name.now more) }
{
    let text = name.as_slice();
    let known = uses.contains_key(text);
    uses.insert(text, one_more(known, more))?;
    Ok(())
}

/// Counts the unit of a statement that calls nothing.
pub fn add_plain<'a>(
    uses: &mut IndexMap<&'a [u8], Use>,
    looped: bool,
    stmt: &'a Stmt,
) -> Result<(), AllocError>
    ensures { OnOk result (AddsPlain uses.old.entries uses.new.entries looped stmt.now) }
{
    match register_of(stmt) {
        Some(name) => note(uses, name, Use::Once { looped }),
        None => Ok(()),
    }
}

fn mark_stmt<'a>(uses: &mut IndexMap<&'a [u8], Use>, stmt: &'a Stmt) -> Result<(), AllocError>
    ensures { OnOk result (MarksStmt uses.old.entries uses.new.entries stmt.now) }
{
    match register_of(stmt) {
        Some(name) => note(uses, name, Use::Twice),
        None => Ok(()),
    }
}

/// Counts each register of an action's body as named twice.
pub fn mark_body<'a>(uses: &mut IndexMap<&'a [u8], Use>, body: &'a [Stmt]) -> Result<(), AllocError>
    ensures { OnOk result (MarksBody uses.old.entries uses.new.entries body.now) }
{
    for stmt in body {
        mark_stmt(uses, stmt)?;
    }
    Ok(())
}
