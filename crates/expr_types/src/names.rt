//! Which names may be declared.

ghost use Rattle.std.specs.Prelude.{◌≡◌};
ghost use Rattle.elastic_ast.specs.Typing.Scope.{among};
ghost use Rattle.elastic_ast.specs.Typing.Demand.{has_underscores as has_underscores_of, fixed_names};
ghost use Rattle.expr_types.specs.DeclaredNames.{name_rule};

use elastic_ast::Rule;

/// Whether a name has two underscores in a row.
#[tactic(auto, using(crate::proofs::Underscores::underscores))]
pub fn has_underscores(name: &[u8]) -> bool
    ensures { result ≡ has_underscores_of name.now }
{
    let mut rest = name;
    while rest.len() >= 2 {
        if rest[0] == b'_' && rest[1] == b'_' {
            return true;
        }
        rest = &rest[1..];
    }
    false
}

/// Whether a name stands for something of the language itself.
#[tactic(auto, unfolding(elastic_ast::specs::Typing::Demand::fixed_names))]
pub fn is_fixed(name: &[u8]) -> bool
    ensures { result ≡ among fixed_names name.now }
{
    name == b"hash".as_slice()
        || name == b"Register".as_slice()
        || name == b"NoAction".as_slice()
        || name == b"accept".as_slice()
        || name == b"reject".as_slice()
        || name == b"main".as_slice()
        || name == b"Pisa".as_slice()
        || name == b"std_t".as_slice()
        || name == b"headers_t".as_slice()
        || name == b"meta_t".as_slice()
        || name == b"hdr".as_slice()
        || name == b"meta".as_slice()
        || name == b"std".as_slice()
        || name == b"pkt".as_slice()
}

/// The rule that a declared name breaks, where `known` says whether its scope has it already.
pub fn broken_name(allow_reserved: bool, known: bool, name: &[u8]) -> Option<Rule>
    ensures { result ≡ name_rule allow_reserved known name.now }
{
    if known || is_fixed(name) {
        Some(Rule::Twice)
    } else if !allow_reserved && has_underscores(name) {
        Some(Rule::ReservedName)
    } else {
        None
    }
}
