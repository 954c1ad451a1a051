//! The body of the control that `main` names.

ghost use Rattle.std.specs.Prelude.{◌≡◌, option_map, unwrap_or};
ghost use Rattle.std.specs.Option.{option_copied};
ghost use Rattle.elastic_ast.specs.Tree.PlainStmts.{nil};
ghost use Rattle.elastic_ast.specs.Seen.{seen_decl, seen_decls, seen_stmts};
ghost use Rattle.elastic_ast.specs.Typing.Scope.{found};
ghost use Rattle.elastic_ast.specs.Packets.MainParts.{main_in, control_in, body_of};

use elastic_ast::{Decl, Stmt};
use elx_bits::Name;

/// The name of the control that `main` names.
fn main_control<'a>(decls: &'a [Decl]) -> Option<&'a Name>
    ensures { option_copied result ≡ option_map (λ main. main.1) (found main_in (seen_decls decls.now)) }
{
    for decl in decls {
        if let Decl::Main { control, .. } = decl {
            return Some(control);
        }
    }
    None
}

/// The body of a declaration, if it is that of a control of this name.
fn body_in<'a>(decl: &'a Decl, name: &Name) -> Option<&'a [Stmt]>
    ensures { option_map seen_stmts (option_copied result) ≡ control_in name.now (seen_decl decl.now) }
{
    match decl {
        Decl::Control {
            name: control,
            locals: _,
            body,
        } if name.as_slice() == control.as_slice() => Some(body.as_slice()),
        _ => None,
    }
}

/// The body of the control of a name: none, where there is no such control.
fn body_named<'a>(decls: &'a [Decl], name: &Name) -> &'a [Stmt]
    ensures { seen_stmts result.now ≡ unwrap_or (found (control_in name.now) (seen_decls decls.now)) nil }
{
    for decl in decls {
        if let Some(body) = body_in(decl, name) {
            return body;
        }
    }
    &[]
}

/// The body of the control that `main` names: none, where there is no `main`, or no such control.
pub fn main_body<'a>(decls: &'a [Decl]) -> &'a [Stmt]
    ensures { seen_stmts result.now ≡ body_of (seen_decls decls.now) }
{
    match main_control(decls) {
        Some(name) => body_named(decls, name),
        None => &[],
    }
}
