//! What the registers that a piece of a program names come down to.

ghost use Rattle.std.specs.Prelude.{◌≡◌};
ghost use Rattle.std.specs.Option.{option_copied};
ghost use Rattle.elastic_ast.specs.Seen.{seen_stmt, seen_stmts};
ghost use Rattle.elastic_ast.specs.Typing.NamedRegisters.{plain_registers, body_registers};
ghost use Rattle.register_uses.specs.Summaries.{PlainSummary, both, plain_summary, summed};
ghost use Rattle.elastic_ast.specs.Typing.AskedInLocals.{option_names};

use elastic_ast::Stmt;
use elx_bits::Name;

/// No register, one alone, however often it is named, or several different ones.
#[derive(Clone, Copy)]
pub enum Summary<'a> {
    Nothing,
    Only(&'a Name),
    Several,
}

/// What two pieces name together.
pub fn together<'a>(one: Summary<'a>, other: Summary<'a>) -> Summary<'a>
    ensures { plain_summary result ≡ both (plain_summary one.entry) (plain_summary other.entry) }
{
    match one {
        Summary::Nothing => other,
        Summary::Several => Summary::Several,
        Summary::Only(name) => with_name(name, other),
    }
}

fn with_name<'a>(name: &'a Name, other: Summary<'a>) -> Summary<'a>
    ensures { plain_summary result ≡ both (PlainSummary.Only name.now) (plain_summary other.entry) }
{
    match other {
        Summary::Nothing => Summary::Only(name),
        Summary::Several => Summary::Several,
        Summary::Only(second) => {
            if name.as_slice() == second.as_slice() {
                Summary::Only(name)
            } else {
                Summary::Several
            }
        }
    }
}

/// The register that a statement itself names, if it names one.
#[tactic(auto, using(elastic_ast::proofs::SeenLaws::seen))]
pub fn register_of<'a>(stmt: &'a Stmt) -> Option<&'a Name>
    ensures { option_names (option_copied result) ≡ plain_registers (seen_stmt stmt.now) }
{
    match stmt {
        Stmt::Read { reg, .. } => Some(&reg.name),
        Stmt::Write { reg, .. } => Some(&reg.name),
        Stmt::Block { .. }
        | Stmt::If { no: None, .. }
        | Stmt::If { no: Some(_), .. }
        | Stmt::For { .. }
        | Stmt::Assign { .. }
        | Stmt::Valid { .. }
        | Stmt::Call { .. }
        | Stmt::Apply(_) => None,
    }
}

fn of_stmt<'a>(stmt: &'a Stmt) -> Summary<'a>
    ensures { plain_summary result ≡ summed (plain_registers (seen_stmt stmt.now)) }
{
    match register_of(stmt) {
        Some(name) => Summary::Only(name),
        None => Summary::Nothing,
    }
}

/// What the body of an action names.
pub fn of_body<'a>(body: &'a [Stmt]) -> Summary<'a>
    ensures { plain_summary result ≡ summed (body_registers (seen_stmts body.now)) }
{
    let mut summary = Summary::Nothing;
    for stmt in body {
        summary = together(summary, of_stmt(stmt));
    }
    summary
}
