//! The loops that call the actions of a control.

ghost use Rattle.std.specs.Prelude.{◌≡◌, ◌<◌, length, OnOk, IfOk};
ghost use Rattle.decl_check.specs.CallerSizes.{with_size, HasCall, HasCallers, HasCallersIn, AreAllCallers, AreEmpty};

use elastic_ast::Stmt;
use elx_bits::{Items, Name};
use program_names::NamePlaces;
use std::alloc::{AllocError, Global};

/// Adds a size at a place.
fn push_at<'a>(
    sizes: &mut [Items<&'a Name>],
    place: usize,
    size: &'a Name,
) -> Result<(), AllocError>
    requires { place < length sizes.old }
    ensures { OnOk result (sizes.new ≡ with_size sizes.old place size.entry) }
{
    if sizes[place].push(size).is_err() {
        return Err(AllocError);
    }
    Ok(())
}

/// Adds the size of the loop around to those of the action that is called, where there is a loop and such an action.
fn add_call<'a>(
    names: &NamePlaces,
    around: Option<&'a Name>,
    called: &Name,
    sizes: &mut [Items<&'a Name>],
) -> Result<(), AllocError>
    requires { length sizes.old ≡ length names.now }
    ensures { OnOk result (HasCall names.now around.entry called.now sizes.old sizes.new) }
{
    let place = names.find(called);
    match around {
        Some(size) => match place {
            Some(place) => push_at(sizes, place, size),
            None => Ok(()),
        },
        None => Ok(()),
    }
}

/// Adds to each action the sizes of the loops that call it from a statement, in a loop of the given size or in none.
#[cycle(walk)]
fn add_callers<'a>(
    names: &NamePlaces,
    around: Option<&'a Name>,
    stmt: &'a Stmt,
    sizes: &mut [Items<&'a Name>],
) -> Result<(), AllocError>
    requires { length sizes.old ≡ length names.now }
    ensures { OnOk result (HasCallers names.now around.entry stmt.now sizes.old sizes.new) }
{
    match stmt {
        Stmt::Block { body, .. } => add_callers_in(names, around, body.as_slice(), sizes),
        Stmt::If { yes, no, .. } => {
            add_callers_in(names, around, yes.as_slice(), sizes)?;
            match no {
                Some(no) => add_callers_in(names, around, no.as_slice(), sizes),
                None => Ok(()),
            }
        }
        Stmt::For { size, body, .. } => add_callers_in(names, Some(size), body.as_slice(), sizes),
        Stmt::Call { action, .. } => add_call(names, around, action, sizes),
        Stmt::Assign { .. }
        | Stmt::Read { .. }
        | Stmt::Write { .. }
        | Stmt::Valid { .. }
        | Stmt::Apply(_) => Ok(()),
    }
}

#[cycle(walk)]
fn add_callers_in<'a>(
    names: &NamePlaces,
    around: Option<&'a Name>,
    stmts: &'a [Stmt],
    sizes: &mut [Items<&'a Name>],
) -> Result<(), AllocError>
    requires { length sizes.old ≡ length names.now }
    ensures { OnOk result (HasCallersIn names.now around.entry stmts.now sizes.old sizes.new) }
{
    for stmt in stmts {
        add_callers(names, around, stmt, sizes)?;
    }
    Ok(())
}

/// So many empty lists.
fn empty_lists<'a>(alloc: Global, count: usize) -> Result<Vec<Items<&'a Name>>, AllocError>
    ensures { IfOk result (λ sizes. AreEmpty count sizes.items) }
{
    let mut lists = Vec::new(alloc);
    for _ in 0..count {
        if lists.push(Items::new(alloc)).is_err() {
            return Err(AllocError);
        }
    }
    Ok(lists)
}

/// For each of some names, so many, the sizes of the loops of a control's body that call the action of this name.
pub fn callers<'a>(
    alloc: Global,
    names: &NamePlaces,
    count: usize,
    body: &'a [Stmt],
) -> Result<Vec<Items<&'a Name>>, AllocError>
    requires { count ≡ length names.now }
    ensures { IfOk result (λ sizes. AreAllCallers names.now body.now sizes.items) }
{
    let mut sizes = empty_lists(alloc, count)?;
    add_callers_in(names, None, body, sizes.as_mut_slice())?;
    Ok(sizes)
}
