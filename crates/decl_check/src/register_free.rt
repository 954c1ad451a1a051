//! Which actions of a control name no register.

ghost use Rattle.std.specs.Prelude.{◌≡◌, ◌==◌, not, length, map, IfOk};
ghost use Rattle.elastic_ast.specs.Seen.{seen_stmt, seen_stmts};
ghost use Rattle.elastic_ast.specs.Typing.NamedRegisters.{plain_registers, body_registers};
ghost use Rattle.program_names.specs.LocalParts.{name_of_local};
ghost use Rattle.decl_check.specs.RegisterFree.{register_free_local, IsRegisterFreeUnder};

use elastic_ast::{Local, Stmt};
use elx_bits::Name;
use program_names::NamePlaces;
use std::alloc::{AllocError, Global};
use std::marker::Model;

/// Whether a plain statement names a register.
#[tactic(auto, using(elastic_ast::proofs::SeenLaws::seen))]
fn names_register(stmt: &Stmt) -> bool
    ensures { result ≡ not (length (plain_registers (seen_stmt stmt.now)) == 0) }
{
    match stmt {
        Stmt::Read { .. } | Stmt::Write { .. } => true,
        Stmt::Block { .. }
        | Stmt::If { no: Some(_), .. }
        | Stmt::If { no: None, .. }
        | Stmt::For { .. }
        | Stmt::Assign { .. }
        | Stmt::Valid { .. }
        | Stmt::Call { .. }
        | Stmt::Apply(_) => false,
    }
}

/// Whether the body of an action names no register.
fn names_none(body: &[Stmt]) -> bool
    ensures { result ≡ (length (body_registers (seen_stmts body.now)) == 0) }
{
    for stmt in body {
        if names_register(stmt) {
            return false;
        }
    }
    true
}

/// Whether this is no action with a register in its body.
fn is_register_free(local: &Local) -> bool
    ensures { result ≡ register_free_local local.now }
{
    match local {
        Local::Action(action) => names_none(action.body.as_slice()),
        Local::Table(_) => true,
    }
}

/// Of each action and table of a control, whether it is no action with a register in its body.
pub fn register_free_locals(alloc: Global, locals: &[Local]) -> Result<Vec<bool>, AllocError>
    ensures { IfOk result (λ free. free.items ≡ map register_free_local locals.now) }
{
    let mut free = Vec::new(alloc);
    for local in locals {
        free.push(is_register_free(local))?;
    }
    Ok(free)
}

/// The actions and tables of a control, of which those without registers are found by their names. A contract sees the list of
/// all of them.
#[derive(Drop)]
pub struct RegisterFree<'a> {
    locals: &'a [Local],
    names: &'a NamePlaces,
    free: &'a [bool],
}

impl<'a> Model for RegisterFree<'a> {
    ghost use Rattle.std.specs.Prelude.{List};
    ghost use Rattle.std.specs.Coded.{coded_list};
    ghost use Rattle.elastic_ast.specs.declared.declarations.Local.{Local};
    ghost use Rattle.elastic_ast.specs.contracts.declarations.Local as local;
    ghost use Rattle.decl_check.specs.RegisterFree.{AreRegisterFree};

    ghost Value = { List Local };

    ghost coded = { coded_list local.the_row.coded };

    ghost view = { λ actions. actions.locals.now };

    ghost invariant = { λ actions. AreRegisterFree actions.names.now actions.locals.now actions.free.now };
}

impl<'a> RegisterFree<'a> {
    /// The actions and tables of a control, with a table of their names and what was told of each.
    pub fn new(locals: &'a [Local], names: &'a NamePlaces, free: &'a [bool]) -> RegisterFree<'a>
        requires names { names.now ≡ map name_of_local locals.now }
        requires free { free.now ≡ map register_free_local locals.now }
        ensures { result ≡ locals.now }
    {
        RegisterFree {
            locals,
            names,
            free,
        }
    }

    /// Whether the action of a name has no register in its body, where there is such an action.
    pub fn is_register_free(&self, name: &Name) -> bool
        ensures { IsRegisterFreeUnder self.now name.now result }
    {
        // A field is named, so that what holds of the fields is known.
        let _ = &self.locals;
        match self.names.find(name) {
            Some(place) => self.free[place],
            None => true,
        }
    }
}
