//! What the actions and tables of a control ask, their names aside.

ghost use Rattle.std.specs.Prelude.{◌≡◌, [], map};
ghost use Rattle.program_names.specs.LocalParts.{name_of_local};
ghost use Rattle.decl_check.specs.CallerSizes.{AreCallers, AreAllCallers};
ghost use Rattle.decl_check.specs.Refusals.{RefusedBy, PassesOn};
ghost use Rattle.decl_check.specs.RegisterFree.{AreFirst};
ghost use Rattle.decl_check.specs.ActionRules.{local_breaks, locals_break};

use crate::actions::check_action;
use crate::match_tables::check_table;
use crate::refusal::Refusal;
use crate::register_free::RegisterFree;
use elastic_ast::{Local, Stmt};
use elx_bits::{Items, Name};
use expr_types::Scope;
use program_names::LocalNames;
use std::alloc::Global;

/// What an action or a table asks, behind some others.
fn check_local(
    alloc: Global,
    allow_reserved: bool,
    scope: &Scope<'_>,
    body: &[Stmt],
    sizes: &[&Name],
    above: &LocalNames<'_>,
    free: &RegisterFree<'_>,
    item: &Local,
) -> Result<(), Refusal>
    requires callers { AreCallers (name_of_local item.now) body.now sizes.now }
    requires first { AreFirst above.now free.now }
    ensures fine { PassesOn (local_breaks allow_reserved scope.now body.now above.now item.now) result }
    ensures refused { RefusedBy (local_breaks allow_reserved scope.now body.now above.now item.now) result }
{
    match item {
        Local::Action(action) => check_action(
            alloc,
            allow_reserved,
            scope,
            body,
            sizes,
            &above.before(0),
            action,
        ),
        Local::Table(table) => check_table(alloc, allow_reserved, scope, above, free, table),
    }
}

/// The first rule that the actions and tables of a control with this body break.
pub fn check_locals(
    alloc: Global,
    allow_reserved: bool,
    scope: &Scope<'_>,
    body: &[Stmt],
    callers: &[Items<&Name>],
    names: &LocalNames<'_>,
    free: &RegisterFree<'_>,
    locals: &[Local],
) -> Result<(), Refusal>
    requires names { names.now ≡ locals.now }
    requires free { free.now ≡ locals.now }
    requires callers { AreAllCallers (map name_of_local locals.now) body.now callers.now }
    ensures fine { PassesOn (locals_break allow_reserved scope.now body.now [] locals.now) result }
    ensures refused { RefusedBy (locals_break allow_reserved scope.now body.now [] locals.now) result }
{
    for (i, local) in locals.iter().enumerate() {
        let sizes = callers[i].as_slice();
        match check_local(
            alloc,
            allow_reserved,
            scope,
            body,
            sizes,
            &names.before(i),
            free,
            local,
        ) {
            Ok(()) => {}
            Err(refusal) => return Err(refusal),
        }
    }
    Ok(())
}
