//! The widths of parameters and of the fields of `std`.

ghost use Rattle.std.specs.Prelude.{◌≡◌};
ghost use Rattle.elastic_ast.specs.Typing.LookUps.{std_width as std_width_of};
ghost use Rattle.elastic_ast.specs.Typing.Types.{param_width as param_width_of};
ghost use Rattle.expr_types.specs.Placed.{params_in};

use elx_bits::Name;
use program_names::ParamNames;

/// Bits of a port.
const PORT_WIDTH: u8 = 16;

/// The width of a parameter, where there are parameters around.
pub fn param_width(params: Option<&ParamNames<'_>>, name: &Name) -> Option<u8>
    ensures { result ≡ param_width_of (params_in params.entry) name.now }
{
    match params {
        Some(params) => params.named(name).map(|param| param.width),
        None => None,
    }
}

/// The width of a field of `std`.
#[tactic(auto, unfolding(elastic_ast::specs::Typing::LookUps::std_fields))]
pub fn std_width(name: &Name) -> Option<u8>
    ensures { result ≡ std_width_of name.now }
{
    let text = name.as_slice();
    if text == b"in_port".as_slice() || text == b"out_port".as_slice() {
        Some(PORT_WIDTH)
    } else if text == b"drop".as_slice() {
        Some(1)
    } else {
        None
    }
}
