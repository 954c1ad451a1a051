//! Summaries of the actions and the tables of a program, so that each is gone over once, however many pieces call it.

ghost use Rattle.std.specs.Prelude.{◌≡◌, IfOk, IfSome, OnOk};
ghost use Rattle.std.specs.Option.{option_copied};
ghost use Rattle.expr_types.specs.Scoped.{before_of};
ghost use Rattle.unit_parts.specs.SeenPieces.{seen_task, seen_piece};
ghost use Rattle.unit_parts.specs.UnitFrom.{AreNeeds};
ghost use Rattle.program_names.specs.FirstNamed.{entry_value};
ghost use Rattle.unit_parts.specs.Called.{called};
ghost use Rattle.unit_flow.specs.Callees.{IsSummaryOf, ShowsSummaryOf, seen_call};
ghost use Rattle.unit_flow.specs.Remembered.{AreSummaries, Puts, PutsCall, summary_under};

use crate::called::{Call, call_of, summary};
use elastic_ast::{Action, Decl, Local, Table};
use elx_bits::Name;
use expr_types::Scope;
use indexmap::IndexMap;
use std::alloc::{AllocError, Global};
use unit_parts::{Needs, Piece, Summary, needs_of};

/// Summaries of actions and of tables, each under its name.
#[derive(Drop)]
pub struct Summaries<'a> {
    actions: IndexMap<&'a [u8], Summary<'a>>,
    tables: IndexMap<&'a [u8], Summary<'a>>,
}

/// Puts a summary under a name.
fn put<'a>(
    table: &mut IndexMap<&'a [u8], Summary<'a>>,
    name: &'a Name,
    summary: Summary<'a>,
) -> Result<(), AllocError>
    ensures { OnOk result (Puts table.old.entries table.new.entries name.now summary.entry) }
{
    let text = name.as_slice();
    table.insert(text, summary)?;
    Ok(())
}

/// Puts the summary of what is called under its name.
fn add_called<'a>(
    alloc: Global,
    scope: &Scope<'a>,
    table: &mut IndexMap<&'a [u8], Summary<'a>>,
    name: &'a Name,
    call: Call<'a>,
) -> Result<(), AllocError>
    ensures { OnOk result (PutsCall (before_of scope.now) call.entry table.old.entries table.new.entries name.now) }
{
    let summary = summary(alloc, scope, call)?;
    put(table, name, summary)?;
    Ok(())
}

/// Adds the summary of an action or a table.
fn add_local<'a>(
    alloc: Global,
    scope: &Scope<'a>,
    known: &mut Summaries<'a>,
    local: &'a Local,
) -> Result<(), AllocError>
    requires { AreSummaries (before_of scope.now) known.old }
    ensures { OnOk result (AreSummaries (before_of scope.now) known.new) }
{
    match local {
        Local::Action(Action { name, .. }) => {
            add_called(alloc, scope, &mut known.actions, name, Call::Action(name))
        }
        Local::Table(Table { name, .. }) => {
            add_called(alloc, scope, &mut known.tables, name, Call::Table(name))
        }
    }
}

/// Adds the summaries of some actions and tables.
fn add_locals<'a>(
    alloc: Global,
    scope: &Scope<'a>,
    known: &mut Summaries<'a>,
    locals: &'a [Local],
) -> Result<(), AllocError>
    requires { AreSummaries (before_of scope.now) known.old }
    ensures { OnOk result (AreSummaries (before_of scope.now) known.new) }
{
    for local in locals {
        add_local(alloc, scope, known, local)?;
    }
    Ok(())
}

/// Adds the summaries of what a declaration declares.
fn add_decl<'a>(
    alloc: Global,
    scope: &Scope<'a>,
    known: &mut Summaries<'a>,
    decl: &'a Decl,
) -> Result<(), AllocError>
    requires { AreSummaries (before_of scope.now) known.old }
    ensures { OnOk result (AreSummaries (before_of scope.now) known.new) }
{
    match decl {
        Decl::Control { locals, .. } => add_locals(alloc, scope, known, locals.as_slice()),
        _ => Ok(()),
    }
}

/// The summaries of the actions and the tables that some declarations declare.
pub fn summarize<'a>(
    alloc: Global,
    scope: &Scope<'a>,
    decls: &'a [Decl],
) -> Result<Summaries<'a>, AllocError>
    ensures { IfOk result (AreSummaries (before_of scope.now)) }
{
    let mut known = Summaries {
        actions: IndexMap::new(alloc),
        tables: IndexMap::new(alloc),
    };
    for decl in decls {
        add_decl(alloc, scope, &mut known, decl)?;
    }
    Ok(known)
}

/// The summary under a name.
fn under<'a, 'k>(table: &'k IndexMap<&'a [u8], Summary<'a>>, name: &Name) -> Option<&'k Summary<'a>>
    ensures { option_copied result ≡ entry_value table.now.entries name.now }
{
    table.get(name.as_slice())
}

/// The summary that is known of what a piece calls.
fn find<'a, 'k>(known: &'k Summaries<'a>, call: Call<'_>) -> Option<&'k Summary<'a>>
    ensures { option_copied result ≡ summary_under known.now (seen_call call.entry) }
{
    match call {
        Call::Nothing => None,
        Call::Action(name) => under(&known.actions, name),
        Call::Table(name) => under(&known.tables, name),
    }
}

/// The same, as what it is in the program of a scope.
fn known_summary<'a, 'k>(
    scope: &Scope<'a>,
    known: &'k Summaries<'a>,
    call: Call<'_>,
) -> Option<&'k Summary<'a>>
    requires { AreSummaries (before_of scope.now) known.now }
    ensures { IfSome result (ShowsSummaryOf (before_of scope.now) (seen_call call.entry)) }
{
    // The scope tells in which program.
    let _ = scope;
    find(known, call)
}

/// What a piece of work touches and takes, where this is the summary of what it calls.
fn needs_by<'a>(
    alloc: Global,
    scope: &Scope<'a>,
    piece: &Piece<'a>,
    call: Call<'_>,
    summary: &Summary<'a>,
) -> Result<Needs<'a>, AllocError>
    requires same { seen_call call ≡ called (seen_task piece.now.task) }
    requires summary { IsSummaryOf (before_of scope.now) (seen_call call) summary.now }
    ensures { IfOk result (AreNeeds (before_of scope.now) (seen_piece piece.now)) }
{
    // The scope tells in which program, and the call what is summed up.
    let _ = scope;
    let _ = call;
    let needs = needs_of(alloc, piece, summary)?;
    Ok(needs)
}

/// What a piece of work of a program touches and takes. A summary that isn't known is made.
pub fn needs<'a>(
    alloc: Global,
    scope: &Scope<'a>,
    known: &Summaries<'a>,
    piece: &Piece<'a>,
) -> Result<Needs<'a>, AllocError>
    requires { AreSummaries (before_of scope.now) known.now }
    ensures { IfOk result (AreNeeds (before_of scope.now) (seen_piece piece.now)) }
{
    let call = call_of(piece.task);
    match known_summary(scope, known, call) {
        Some(summary) => needs_by(alloc, scope, piece, call, summary),
        None => {
            let summary = summary(alloc, scope, call)?;
            needs_by(alloc, scope, piece, call, &summary)
        }
    }
}
