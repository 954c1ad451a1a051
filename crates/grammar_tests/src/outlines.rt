//! Outlines of programs: each declaration by its form, its names and its widths, and the statements of a control's body by
//! their kinds.

use elastic_ast::{Decl, Field, Local, Program, State, Stmt};
use elx_bits::Name;
use std::alloc::{AllocError, Global};

/// The outline of a program.
pub fn outline(alloc: Global, program: &Program) -> Result<Vec<u8>, AllocError> {
    let mut to = Vec::new(alloc);
    for decl in program.decls.as_slice() {
        put_decl(alloc, &mut to, decl)?;
        to.extend_from_slice(b";")?;
    }
    Ok(to)
}

fn put_number(alloc: Global, to: &mut Vec<u8>, number: usize) -> Result<(), AllocError> {
    let text = format!(in alloc; "{number}")?;
    to.extend_from_slice(text.as_bytes())
}

/// Adds a name behind a sign.
fn put_name(to: &mut Vec<u8>, sign: &[u8], name: &Name) -> Result<(), AllocError> {
    to.extend_from_slice(sign)?;
    to.extend_from_slice(name.as_slice())
}

/// Adds a form with the number of its parts.
fn put_count(alloc: Global, to: &mut Vec<u8>, form: &[u8], parts: usize) -> Result<(), AllocError> {
    to.extend_from_slice(form)?;
    put_number(alloc, to, parts)
}

/// Adds a name with its width and its size.
fn put_sized(
    alloc: Global,
    to: &mut Vec<u8>,
    name: &Name,
    width: u8,
    size: &Option<Name>,
) -> Result<(), AllocError> {
    put_name(to, b" ", name)?;
    put_count(alloc, to, b":", usize::from(width))?;
    if let Some(size) = size {
        put_name(to, b"[", size)?;
        to.extend_from_slice(b"]")?;
    }
    Ok(())
}

fn put_fields(alloc: Global, to: &mut Vec<u8>, fields: &[Field]) -> Result<(), AllocError> {
    for field in fields {
        put_sized(alloc, to, &field.name, field.width, &field.size)?;
    }
    Ok(())
}

fn put_names(to: &mut Vec<u8>, names: &[Name]) -> Result<(), AllocError> {
    for name in names {
        put_name(to, b" ", name)?;
    }
    Ok(())
}

fn put_states(to: &mut Vec<u8>, states: &[State]) -> Result<(), AllocError> {
    for state in states {
        put_name(to, b" ", &state.name)?;
        put_names(to, state.extracts.as_slice())?;
    }
    Ok(())
}

fn put_locals(to: &mut Vec<u8>, locals: &[Local]) -> Result<(), AllocError> {
    for local in locals {
        match local {
            Local::Action(action) => put_name(to, b" action ", &action.name)?,
            Local::Table(table) => put_name(to, b" table ", &table.name)?,
        }
    }
    Ok(())
}

fn put_stmt(alloc: Global, to: &mut Vec<u8>, stmt: &Stmt) -> Result<(), AllocError> {
    match stmt {
        Stmt::Block { body, .. } => put_count(alloc, to, b" block", body.as_slice().len()),
        Stmt::If { yes, .. } => put_count(alloc, to, b" if", yes.as_slice().len()),
        Stmt::For { size, body, .. } => {
            put_name(to, b" for ", size)?;
            put_count(alloc, to, b":", body.as_slice().len())
        }
        Stmt::Assign { .. } => to.extend_from_slice(b" assign"),
        Stmt::Read { reg, .. } => put_name(to, b" read ", &reg.name),
        Stmt::Write { reg, .. } => put_name(to, b" write ", &reg.name),
        Stmt::Valid { header, .. } => put_name(to, b" valid ", header),
        Stmt::Call { action, .. } => put_name(to, b" call ", action),
        Stmt::Apply(table) => put_name(to, b" apply ", table),
    }
}

fn put_stmts(alloc: Global, to: &mut Vec<u8>, stmts: &[Stmt]) -> Result<(), AllocError> {
    to.extend_from_slice(b" do")?;
    for stmt in stmts {
        put_stmt(alloc, to, stmt)?;
    }
    Ok(())
}

fn put_members(to: &mut Vec<u8>, members: &[(Name, Name)]) -> Result<(), AllocError> {
    for member in members {
        put_name(to, b" ", &member.0)?;
        put_name(to, b" ", &member.1)?;
    }
    Ok(())
}

fn put_decl(alloc: Global, to: &mut Vec<u8>, decl: &Decl) -> Result<(), AllocError> {
    match decl {
        Decl::Include(file) => put_count(alloc, to, b"include ", usize::from(*file)),
        Decl::Symbol(name) => put_name(to, b"symbolic ", name),
        Decl::Assume(comps) => put_count(alloc, to, b"assume ", comps.as_slice().len()),
        Decl::Maximize(terms) => put_count(alloc, to, b"maximize ", terms.as_slice().len()),
        Decl::Const { name, .. } => put_name(to, b"const ", name),
        Decl::Header { name, fields } => {
            put_name(to, b"header ", name)?;
            put_fields(alloc, to, fields.as_slice())
        }
        Decl::Headers(members) => {
            to.extend_from_slice(b"headers")?;
            put_members(to, members.as_slice())
        }
        Decl::Meta(fields) => {
            to.extend_from_slice(b"meta")?;
            put_fields(alloc, to, fields.as_slice())
        }
        Decl::Register {
            name,
            width,
            size,
            ..
        } => {
            to.extend_from_slice(b"register")?;
            put_sized(alloc, to, name, *width, size)
        }
        part => put_part(alloc, to, part),
    }
}

/// Adds a part of the pipeline.
fn put_part(alloc: Global, to: &mut Vec<u8>, part: &Decl) -> Result<(), AllocError> {
    match part {
        Decl::Parser { name, states } => {
            put_name(to, b"parser ", name)?;
            put_states(to, states.as_slice())
        }
        Decl::Control { name, locals, body } => {
            put_name(to, b"control ", name)?;
            put_locals(to, locals.as_slice())?;
            put_stmts(alloc, to, body.as_slice())
        }
        Decl::Deparser { name, emits } => {
            put_name(to, b"deparser ", name)?;
            put_names(to, emits.as_slice())
        }
        Decl::Main {
            parser,
            control,
            deparser,
        } => {
            put_name(to, b"main ", parser)?;
            put_name(to, b" ", control)?;
            put_name(to, b" ", deparser)
        }
        _ => Ok(()),
    }
}
