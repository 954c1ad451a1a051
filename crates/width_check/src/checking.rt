//! The check of a whole program.

ghost use Rattle.std.specs.Prelude.{◌≡◌, ◌≤◌, ◌+◌, length, slice_get, Some, IfOk, OnOk, OnErr, IfErr};
ghost use Rattle.elastic_ast.specs.Seen.{seen_decl, seen_decls, seen_program};
ghost use Rattle.elastic_ast.specs.Typing.Typed.{Typed};
ghost use Rattle.decl_check.specs.Refusals.{IsTableOf, RefusedBy, PassesOn};
ghost use Rattle.width_check.specs.Walked.{next_breaks, HasNamesBefore, HasNamesOfAll, IsAskedFirst, IsFirstBroken, IsWholeFirst, NamesStates, before_asked};
ghost use Rattle.program_names.specs.TopNames.{part_names};
ghost use Rattle.width_check.specs.Sound.{IsSound, most_declarations};
ghost use Rattle.width_check.specs.Broken.{IsBroken};

use crate::walk::Walk;
use crate::whole::Whole;
use decl_check::{Refusal, check_declaration};
use elastic_ast::{Decl, Program, Rule};
use expr_types::Scope;
use program_names::{NamePlaces, Names};
use std::alloc::{AllocError, Global};
use std::marker::Model;
use thiserror::Error;

/// A rule that a program breaks, and the number of the declaration that breaks it, counted from 0.
#[derive(Clone, Copy, Debug, PartialEq, Eq)]
pub struct TypeError {
    pub rule: Rule,
    pub decl: u32,
}

/// Why a program isn't taken.
#[derive(Clone, Copy, Debug, PartialEq, Eq, Error)]
pub enum CheckError {
    /// The program isn't typed.
    #[error("declaration {} breaks a rule of types", .0.decl)]
    Broken(TypeError),
    /// There is no memory for the tables of names.
    #[error("out of memory")]
    Memory,
}

/// A typed program, with tables of its names. A contract sees its declarations.
#[derive(Drop)]
pub struct Checked {
    program: Program,
    names: Names,
}

impl Model for Checked {
    ghost use Rattle.std.specs.Prelude.{List};
    ghost use Rattle.std.specs.Coded.{coded_list};
    ghost use Rattle.elastic_ast.specs.declared.declarations.Decl.{Decl};
    ghost use Rattle.elastic_ast.specs.contracts.declarations.Decl as decl;
    ghost use Rattle.width_check.specs.Sound.{IsChecked};

    ghost Value = { List Decl };

    ghost coded = { coded_list decl.the_row.coded };

    ghost view = { λ checked. checked.program.decls };

    ghost invariant = { λ checked. IsChecked checked.program.decls checked.names };
}

/// What was found among some declarations: one that breaks a rule, if there is one, and the names of those that were passed.
#[derive(Drop)]
struct Found {
    error: Option<TypeError>,
    names: Names,
}

/// The first rule that the next declaration breaks: by its name, by its kind, or by what stands in it. Where it breaks none,
/// the names of its parts.
fn check_parts(
    alloc: Global,
    allow_reserved: bool,
    walk: &Walk<'_>,
    decl: &Decl,
) -> Result<NamePlaces, Refusal>
    ensures parts { IsTableOf (part_names (seen_decl decl.now)) result }
    ensures fine { PassesOn (next_breaks allow_reserved walk.now decl.now) result }
    ensures refused { RefusedBy (next_breaks allow_reserved walk.now decl.now) result }
{
    let scope = walk.scope();
    match scope.rule_of_name(allow_reserved, decl) {
        Some(rule) => return Err(Refusal::Broken(rule)),
        None => {}
    }
    if !walk.is_first(decl) {
        return Err(Refusal::Broken(Rule::Twice));
    }
    check_declaration(alloc, allow_reserved, &scope, decl)
}

/// The first rule that the next declaration breaks. Where it breaks none, the walk passes it. Else it stays.
fn check_next(
    alloc: Global,
    allow_reserved: bool,
    walk: &mut Walk<'_>,
    decl: &Decl,
) -> Result<(), Refusal>
    requires here { slice_get walk.old.0 walk.old.1 ≡ Some decl.now }
    ensures passed { OnOk result (walk.new ≡ (walk.old.0, walk.old.1 + 1)) }
    ensures kept { OnErr result (walk.new ≡ walk.old) }
    ensures fine { PassesOn (next_breaks allow_reserved walk.old decl.now) result }
    ensures refused { RefusedBy (next_breaks allow_reserved walk.old decl.now) result }
{
    let parts = match check_parts(alloc, allow_reserved, walk, decl) {
        Ok(parts) => parts,
        Err(refusal) => return Err(refusal),
    };
    if walk.pass(decl, parts).is_err() {
        return Err(Refusal::Memory);
    }
    Ok(())
}

/// The first of some declarations that asks what isn't so, and the rule of that, with the names of those before it.
fn asked_first(alloc: Global, allow_reserved: bool, decls: &[Decl]) -> Result<Found, AllocError>
    requires { length decls.now ≤ most_declarations }
    ensures first { IfOk result (λ found. IsAskedFirst allow_reserved (seen_decls decls.now) found.error) }
    ensures names { IfOk result (λ found. HasNamesBefore decls.now found.error found.names) }
{
    let mut walk = Walk::new(alloc, decls);
    for (i, decl) in decls.iter().enumerate() {
        match check_next(alloc, allow_reserved, &mut walk, decl) {
            Ok(()) => {}
            Err(Refusal::Broken(rule)) => {
                let decl = i as u32;
                return Ok(Found {
                    error: Some(TypeError { rule, decl }),
                    names: walk.names(),
                });
            }
            Err(Refusal::Memory) => return Err(AllocError),
        }
    }
    Ok(Found {
        error: None,
        names: walk.names(),
    })
}

/// How many declarations stand before the one that is named, or how many there are.
fn count_before(asked: Option<TypeError>, decls: &[Decl]) -> usize
    ensures { result ≡ before_asked (seen_decls decls.now) asked }
{
    match asked {
        Some(error) => error.decl as usize,
        None => decls.len(),
    }
}

/// The first declaration, of so many, that breaks a rule of the whole program, and that rule.
fn whole_first(alloc: Global, decls: &[Decl], count: usize) -> Result<Option<TypeError>, AllocError>
    requires few { length decls.now ≤ most_declarations }
    requires within { count ≤ length decls.now }
    requires named { NamesStates (seen_decls decls.now) count }
    ensures { IfOk result (IsWholeFirst (seen_decls decls.now) count) }
{
    let whole = Whole::of(alloc, decls)?;
    for i in 0..count {
        if let Some(rule) = whole.rule_of(alloc, &decls[i])? {
            let decl = i as u32;
            return Ok(Some(TypeError { rule, decl }));
        }
    }
    Ok(None)
}

/// The first declaration that breaks a rule, and the first rule that it breaks. Where none does, the names of all.
fn broken_first(alloc: Global, allow_reserved: bool, decls: &[Decl]) -> Result<Found, AllocError>
    requires { length decls.now ≤ most_declarations }
    ensures first { IfOk result (λ found. IsFirstBroken allow_reserved (seen_decls decls.now) found.error) }
    ensures names { IfOk result (λ found. HasNamesOfAll decls.now found.error found.names) }
{
    let asked = asked_first(alloc, allow_reserved, decls)?;
    match whole_first(alloc, decls, count_before(asked.error, decls))? {
        Some(error) => Ok(Found {
            error: Some(error),
            names: asked.names,
        }),
        None => Ok(asked),
    }
}

/// Takes a program that breaks no rule of types. `allow_reserved` allows names with two underscores in a row.
///
/// `Broken` names the first declaration that breaks a rule, and the first rule that it breaks: first what it asks of the
/// declarations before it, in the order of the text, and then the rules of the whole program. The program is given up at a
/// refusal. The rules are this project's own.
pub fn check(alloc: Global, program: Program, allow_reserved: bool) -> Result<Checked, CheckError>
    requires { length program.decls ≤ most_declarations }
    ensures same { IfOk result (λ checked. checked ≡ program.decls) }
    ensures typed { OnOk result (Typed allow_reserved (seen_program program)) }
    ensures broken { IfErr result (IsBroken allow_reserved (seen_program program)) }
{
    let decls = program.decls.as_slice();
    let found = match broken_first(alloc, allow_reserved, decls) {
        Ok(found) => found,
        Err(_) => return Err(CheckError::Memory),
    };
    match found.error {
        Some(error) => Err(CheckError::Broken(error)),
        None => Ok(Checked {
            program,
            names: found.names,
        }),
    }
}

/// The program that was checked.
pub fn program(checked: &Checked) -> &Program
    ensures here { result.now.decls ≡ checked.now }
    ensures sound { IsSound (seen_decls checked.now) }
{
    &checked.program
}

/// The scope of a whole program, in which its names are looked up.
pub fn scope(checked: &Checked) -> Scope<'_>
    ensures { result ≡ (checked.now, length checked.now) }
{
    let decls = checked.program.decls.as_slice();
    Scope::new(decls, decls.len(), &checked.names)
}
