//! What headers, registers and deparsers ask, their names aside.

ghost use Rattle.std.specs.Prelude.{◌≡◌, ◌%◌, map};
ghost use Rattle.elastic_ast.specs.Typing.LookUps.{bits_of_fields, member_name};
ghost use Rattle.elastic_ast.specs.Typing.Asked.{asks_width, field_name};
ghost use Rattle.stmt_check.specs.PlaceRules.{each_breaks};
ghost use Rattle.decl_check.specs.Refusals.{IsTableOf, PassesOn, RefusedBy};
ghost use Rattle.decl_check.specs.PartRules.{widths_break, members_break, headers_break, register_decl_breaks, structs_break, emits_break, main_breaks, header_breaks, headers_t_breaks};

use crate::declarations::check_symbol;
use crate::named_parts::{field_names, member_names};
use crate::refusal::{Refusal, with_parts};
use elastic_ast::{Amount, Field, Rule};
use elx_bits::Name;
use expr_types::{Scope, is_width};
use program_names::NamePlaces;
use std::alloc::Global;
use stmt_check::{check_amount, check_known, either, unless};

fn check_field_widths(allow_reserved: bool, fields: &[Field]) -> Option<Rule>
    ensures { result ≡ each_breaks allow_reserved asks_width fields.now }
{
    for field in fields {
        if !is_width(field.width as u16) {
            return Some(Rule::Width);
        }
    }
    None
}

/// How many bits of a header are over, where its fields are put into bytes.
fn bits_over(fields: &[Field]) -> u8
    ensures { result ≡ bits_of_fields fields.now % 8 }
{
    let mut bits: u8 = 0;
    for field in fields {
        bits = (bits + field.width % 8) % 8;
    }
    bits
}

/// What the widths of a header's fields ask, and that they are whole bytes together.
#[tactic(auto, using(elastic_ast::proofs::Typing::First::firsts))]
pub fn check_widths(allow_reserved: bool, fields: &[Field]) -> Option<Rule>
    ensures { result ≡ widths_break allow_reserved fields.now }
{
    either(
        check_field_widths(allow_reserved, fields),
        unless(bits_over(fields) == 0, Rule::OddHeader),
    )
}

/// What the types of the members of `headers_t` ask.
pub fn check_members(
    allow_reserved: bool,
    scope: &Scope<'_>,
    members: &[(Name, Name)],
) -> Option<Rule>
    ensures { result ≡ members_break allow_reserved scope.now members.now }
{
    for member in members {
        match check_known(allow_reserved, scope.fields_of_type(&member.0).is_some()) {
            Some(rule) => return Some(rule),
            None => {}
        }
    }
    None
}

/// What names ask that are those of headers.
pub fn check_headers(allow_reserved: bool, scope: &Scope<'_>, headers: &[Name]) -> Option<Rule>
    ensures { result ≡ headers_break allow_reserved scope.now headers.now }
{
    for header in headers {
        match check_known(allow_reserved, scope.is_member(header)) {
            Some(rule) => return Some(rule),
            None => {}
        }
    }
    None
}

/// What a register asks, its name aside.
#[tactic(auto, using(elastic_ast::proofs::Typing::First::firsts))]
pub fn check_cells(
    allow_reserved: bool,
    scope: &Scope<'_>,
    width: u8,
    cells: &Amount,
    size: &Option<Name>,
) -> Option<Rule>
    ensures { result ≡ register_decl_breaks allow_reserved scope.now width cells.now size.now }
{
    if !is_width(width as u16) {
        return Some(Rule::Width);
    }
    either(
        check_amount(allow_reserved, scope, cells),
        check_symbol(allow_reserved, scope, size),
    )
}

/// What a parser or a control asks that names `headers_t` and `meta_t`.
pub fn check_structs(allow_reserved: bool, scope: &Scope<'_>) -> Option<Rule>
    ensures { result ≡ structs_break allow_reserved scope.now }
{
    unless(
        scope.has_headers() && scope.has_metadata(),
        Rule::UnknownName,
    )
}

/// What a deparser asks, its name aside.
pub fn check_emits(allow_reserved: bool, scope: &Scope<'_>, emits: &[Name]) -> Option<Rule>
    ensures { result ≡ emits_break allow_reserved scope.now emits.now }
{
    if !scope.has_headers() {
        return Some(Rule::UnknownName);
    }
    check_headers(allow_reserved, scope, emits)
}

/// What `main` asks.
pub fn check_main(
    allow_reserved: bool,
    scope: &Scope<'_>,
    parser: &Name,
    control: &Name,
    deparser: &Name,
) -> Option<Rule>
    ensures { result ≡ main_breaks allow_reserved scope.now parser.now control.now deparser.now }
{
    unless(
        scope.is_parser(parser) && scope.is_control(control) && scope.is_deparser(deparser),
        Rule::UnknownName,
    )
}

/// What a header asks, its name aside. The names are those of its fields.
#[tactic(auto, using(elastic_ast::proofs::Typing::First::firsts))]
pub fn check_header(
    alloc: Global,
    allow_reserved: bool,
    fields: &[Field],
) -> Result<NamePlaces, Refusal>
    ensures parts { IsTableOf (map field_name fields.now) result }
    ensures fine { PassesOn (header_breaks allow_reserved fields.now) result }
    ensures refused { RefusedBy (header_breaks allow_reserved fields.now) result }
{
    let names = field_names(alloc, allow_reserved, fields)?;
    with_parts(names, check_widths(allow_reserved, fields))
}

/// What `headers_t` asks. The names are those of its members.
#[tactic(auto, using(elastic_ast::proofs::Typing::First::firsts))]
pub fn check_headers_t(
    alloc: Global,
    allow_reserved: bool,
    scope: &Scope<'_>,
    members: &[(Name, Name)],
) -> Result<NamePlaces, Refusal>
    ensures parts { IsTableOf (map member_name members.now) result }
    ensures fine { PassesOn (headers_t_breaks allow_reserved scope.now members.now) result }
    ensures refused { RefusedBy (headers_t_breaks allow_reserved scope.now members.now) result }
{
    let names = member_names(alloc, allow_reserved, members)?;
    with_parts(names, check_members(allow_reserved, scope, members))
}
