//! What values and sets ask that a `select` or a table compares with.

ghost use Rattle.std.specs.Prelude.{◌≡◌};
ghost use Rattle.stmt_check.specs.SetRules.{constant_breaks, value_breaks, set_breaks};

use crate::expressions::{alike, check_bits, either, unless};
use elastic_ast::{Expr, Keyset, Rule};
use elx_bits::Name;
use expr_types::{Scope, Ty, of_width, top};

/// What a name asks that stands for a constant of a width.
fn check_constant(allow_reserved: bool, scope: &Scope<'_>, name: &Name, width: Ty) -> Option<Rule>
    ensures { result ≡ constant_breaks allow_reserved scope.now name.now width }
{
    if !scope.is_declared(name) {
        return Some(Rule::UnknownName);
    }
    let constant = scope.constant_width(name);
    if constant.is_none() {
        return Some(Rule::NotConst);
    }
    unless(alike(of_width(constant), width), Rule::Width)
}

/// What a number asks in the width of its place, or the name of a constant of this width.
#[tactic(auto, using(elastic_ast::proofs::SeenLaws::seen))]
pub fn check_value(allow_reserved: bool, scope: &Scope<'_>, value: &Expr, width: Ty) -> Option<Rule>
    ensures { result ≡ value_breaks allow_reserved scope.now value.now width }
{
    match value {
        Expr::Named(name) => check_constant(allow_reserved, scope, name, width),
        Expr::Num { .. }
        | Expr::Bool(_)
        | Expr::Field(_)
        | Expr::IsValid(_)
        | Expr::Unary { .. }
        | Expr::Binary { .. }
        | Expr::Cast { .. }
        | Expr::Slice { .. }
        | Expr::Hash { .. } => check_bits(allow_reserved, &top(scope), value, width),
    }
}

/// What a set asks in a width.
#[tactic(auto, using(elastic_ast::proofs::Typing::First::firsts))]
pub fn check_set(allow_reserved: bool, scope: &Scope<'_>, width: Ty, set: &Keyset) -> Option<Rule>
    ensures { result ≡ set_breaks allow_reserved scope.now width set.now }
{
    match set {
        Keyset::One(value) => check_value(allow_reserved, scope, value, width),
        Keyset::Masked { value, mask } => either(
            check_value(allow_reserved, scope, value, width),
            check_value(allow_reserved, scope, mask, width),
        ),
        Keyset::Any => None,
    }
}
