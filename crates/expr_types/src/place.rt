//! Where an expression or a statement stands.

ghost use Rattle.std.specs.Prelude.{◌≡◌};
ghost use Rattle.elastic_ast.specs.Typing.Scope.{top as top_of};
ghost use Rattle.expr_types.specs.Scoped.{before_of};
ghost use Rattle.expr_types.specs.Placed.{scope_at};

use crate::scopes::Scope;
use crate::sizes::Sizes;
use elx_bits::Name;
use program_names::ParamNames;

/// Where an expression stands: behind the declarations of a scope, with which parameters, and with which index of a loop or
/// an action around it. The sizes are those of the loops that the index may be of.
#[derive(Clone, Copy)]
pub struct Place<'a> {
    pub scope: &'a Scope<'a>,
    pub params: Option<&'a ParamNames<'a>>,
    pub index: Option<&'a Name>,
    pub sizes: Sizes<'a>,
}

/// Outside of actions and loops.
pub fn top<'a>(scope: &'a Scope<'_>) -> Place<'a>
    ensures { scope_at result ≡ top_of (before_of scope.now) }
{
    Place {
        scope,
        params: None,
        index: None,
        sizes: Sizes::new(&[]),
    }
}
