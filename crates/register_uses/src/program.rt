//! The registers that the units of a program name.

ghost use Rattle.std.specs.Prelude.{◌≡◌, ◌↔◌, IfOk, IsTrue, OnOk};
ghost use Rattle.elastic_ast.specs.Seen.{seen_decls};
ghost use Rattle.elastic_ast.specs.Typing.NamedRegisters.{IsUnnamed, NamedTwice, is_array as is_array_of, named_registers};
ghost use Rattle.register_uses.specs.Uses.{use_in_units, is_twice as is_twice_used};
ghost use Rattle.register_uses.specs.HasUses.{AddsDecl, EntersArray, HasAllUses, HasArrays};

use crate::uses::Use;
use crate::walk::with_control;
use elastic_ast::Decl;
use elx_bits::Name;
use indexmap::IndexMap;
use program_names::enter;
use std::alloc::{AllocError, Global};
use std::marker::Model;

/// Which registers the units of work of a program name. A contract sees the declarations of the program.
#[derive(Drop)]
pub struct RegisterUses<'a> {
    decls: &'a [Decl],
    arrays: IndexMap<&'a [u8], bool>,
    uses: IndexMap<&'a [u8], Use>,
}

impl<'a> Model for RegisterUses<'a> {
    ghost use Rattle.std.specs.Prelude.{List};
    ghost use Rattle.std.specs.Coded.{coded_list};
    ghost use Rattle.elastic_ast.specs.declared.declarations.Decl.{Decl};
    ghost use Rattle.elastic_ast.specs.contracts.declarations.Decl as decl;
    ghost use Rattle.register_uses.specs.Uses.{use_in_units, is_twice as is_twice_used};
    ghost use Rattle.register_uses.specs.HasUses.{HasUses};

    ghost Value = { List Decl };

    ghost coded = { coded_list decl.the_row.coded };

    ghost view = { λ uses. uses.decls.now };

    ghost invariant = { λ uses. HasUses uses.decls.now uses.arrays.entries uses.uses.entries };
}

/// Adds the register of a declaration to a table, if it declares one and if none of its name stands there.
fn enter_array<'a>(arrays: &mut IndexMap<&'a [u8], bool>, decl: &'a Decl) -> Result<(), AllocError>
    ensures { OnOk result (EntersArray arrays.old.entries arrays.new.entries decl.now) }
{
    match decl {
        Decl::Register { name, size, .. } => enter(arrays, name.as_slice(), size.is_some()),
        _ => Ok(()),
    }
}

/// Whether each declared register is an array.
fn arrays_of<'a>(alloc: Global, decls: &'a [Decl]) -> Result<IndexMap<&'a [u8], bool>, AllocError>
    ensures { IfOk result (λ arrays. HasArrays decls.now arrays.entries) }
{
    let mut arrays: IndexMap<&'a [u8], bool> = IndexMap::new(alloc);
    for decl in decls {
        enter_array(&mut arrays, decl)?;
    }
    Ok(arrays)
}

/// The uses of the registers with the units of a declaration counted too, which it has if it is a control.
fn with_decl<'a>(
    alloc: Global,
    uses: IndexMap<&'a [u8], Use>,
    decl: &'a Decl,
) -> Result<IndexMap<&'a [u8], Use>, AllocError>
    ensures { IfOk result (λ new. AddsDecl uses.entry.entries new.entries decl.now) }
{
    match decl {
        Decl::Control { locals, body, .. } => {
            with_control(alloc, uses, locals.as_slice(), body.as_slice())
        }
        _ => Ok(uses),
    }
}

/// How the units of all declarations use each register.
fn uses_of<'a>(alloc: Global, decls: &'a [Decl]) -> Result<IndexMap<&'a [u8], Use>, AllocError>
    ensures { IfOk result (λ uses. HasAllUses decls.now uses.entries) }
{
    let mut uses: IndexMap<&'a [u8], Use> = IndexMap::new(alloc);
    for decl in decls {
        uses = with_decl(alloc, uses, decl)?;
    }
    Ok(uses)
}

/// Whether a register that is used so is named twice.
fn is_twice(array: bool, register: Option<Use>) -> bool
    ensures { result ≡ is_twice_used array register }
{
    match register {
        None => false,
        Some(Use::Once { looped }) => looped && !array,
        Some(Use::Twice) => true,
    }
}

impl<'a> RegisterUses<'a> {
    /// The uses of the registers of a program, given by its declarations. The one error is want of memory.
    pub fn of(alloc: Global, decls: &'a [Decl]) -> Result<RegisterUses<'a>, AllocError>
        ensures { IfOk result (λ uses. uses ≡ decls.now) }
    {
        let arrays = arrays_of(alloc, decls)?;
        let uses = uses_of(alloc, decls)?;
        Ok(RegisterUses {
            decls,
            arrays,
            uses,
        })
    }

    /// Whether the first register that is declared under a name is an array.
    fn is_array(&self, register: &Name) -> bool
        ensures { result ≡ is_array_of (seen_decls self.now) register.now }
    {
        // A field is named, so that what holds of the fields is known.
        let _ = &self.decls;
        self.arrays
            .get(register.as_slice())
            .copied()
            .unwrap_or(false)
    }

    /// How the units use a register, if one names it.
    fn use_of(&self, register: &Name) -> Option<Use>
        ensures { result ≡ use_in_units (named_registers (seen_decls self.now)) register.now }
    {
        let _ = &self.decls;
        self.uses.get(register.as_slice()).copied()
    }

    /// Whether two units name a register, a unit in a loop does though it is no array, or a unit names it and another one.
    pub fn is_named_twice(&self, register: &Name) -> bool
        ensures { IsTrue result ↔ NamedTwice (seen_decls self.now) register.now }
    {
        is_twice(self.is_array(register), self.use_of(register))
    }

    /// Whether no unit names a register.
    pub fn is_unnamed(&self, register: &Name) -> bool
        ensures { IsTrue result ↔ IsUnnamed (seen_decls self.now) register.now }
    {
        self.use_of(register).is_none()
    }
}
