//! The header bits that a program takes.

ghost use Rattle.std.specs.Prelude.{◌≡◌, ◌+◌, IfOk, OnOk, map, sum_by};
ghost use Rattle.elastic_ast.specs.Seen.{seen_decls};
ghost use Rattle.elastic_ast.specs.Typing.LookUps.{bits_of_fields as bits_in_fields, members_of, meta_fields};
ghost use Rattle.elastic_ast.specs.Units.Cuts.{tests_in};
ghost use Rattle.elastic_ast.specs.Units.SeenUnits.{seen_unit, seen_work};
ghost use Rattle.elastic_ast.specs.Units.UnitsOf.{units_of, fixed_bits, symbol_bits, member_bits as bits_of_member};
ghost use Rattle.expr_types.specs.Scoped.{before_of};
ghost use Rattle.width_check.specs.Sound.{IsSound};
ghost use Rattle.unit_flow.specs.HeaderCounts.{AddsTo, CountsOne, CountsFields, CountsUnits, field_under};
ghost use Rattle.unit_flow.specs.Knowing.{Knows, known_decls};

use crate::naming::{Known, place_of};
use elastic_ast::{Decl, Field, Unit, Work};
use elx_bits::Name;
use expr_types::Scope;
use std::alloc::{AllocError, Global};

/// Header bits: those at all sizes, and for each symbol those for each one in its size. Numbers that 64 bits don't hold count as
/// want of memory.
#[derive(Drop)]
pub struct HeaderBits {
    pub fixed: u64,
    pub each: Vec<u64>,
}

/// Adds a width at a place, if there is one.
fn add_to(each: &mut [u64], place: usize, width: u64) -> Result<(), AllocError>
    ensures { OnOk result (AddsTo each.old each.new place width) }
{
    if place < each.len() {
        let sum = each[place].checked_add(width).ok_or(AllocError)?;
        each[place] = sum;
    }
    Ok(())
}

/// Adds a width under the symbol of a number, or under none.
fn add_under(bits: &mut HeaderBits, under: Option<usize>, width: u64) -> Result<(), AllocError>
    ensures { OnOk result (CountsOne width under bits.old bits.new) }
{
    match under {
        None => {
            let sum = bits.fixed.checked_add(width).ok_or(AllocError)?;
            bits.fixed = sum;
            Ok(())
        }
        Some(place) => add_to(bits.each.as_mut_slice(), place, width),
    }
}

/// The number of the symbol of the size of a field.
fn symbol_of(known: &Known<'_>, field: &Field) -> Option<usize>
    requires { Knows known.now }
    ensures { result ≡ field_under (known_decls known.now) field.now }
{
    match &field.size {
        Some(name) => Some(place_of(known, name)),
        None => None,
    }
}

/// Adds the bits of metadata.
pub fn add_fields(
    known: &Known<'_>,
    bits: &mut HeaderBits,
    fields: &[Field],
) -> Result<(), AllocError>
    requires { Knows known.now }
    ensures { OnOk result (CountsFields (known_decls known.now) bits.old bits.new fields.now) }
{
    for field in fields {
        add_under(bits, symbol_of(known, field), u64::from(field.width))?;
    }
    Ok(())
}

/// How many predicates a unit assigns.
fn predicates_in(work: &Work) -> u64
    ensures { result ≡ tests_in (seen_work work.now) }
{
    match work {
        Work::Plain(_) | Work::Call(_) | Work::Apply(_) => 0,
        Work::Pred { .. } => 1,
    }
}

/// The number of the symbol of the loop around a unit.
fn loop_of(unit: &Unit) -> Option<usize>
    ensures { result ≡ unit.now.size }
{
    match unit.size {
        Some(size) => Some(size as usize),
        None => None,
    }
}

/// Adds the predicates of units.
pub fn add_predicates(bits: &mut HeaderBits, units: &[Unit]) -> Result<(), AllocError>
    ensures { OnOk result (CountsUnits bits.old bits.new (map seen_unit units.now)) }
{
    for unit in units {
        add_under(bits, loop_of(unit), predicates_in(&unit.work))?;
    }
    Ok(())
}

/// The bits of fields together.
fn bits_of_fields(fields: &[Field]) -> Result<u64, AllocError>
    ensures { IfOk result (λ bits. bits ≡ bits_in_fields fields.now) }
{
    let mut bits = 0u64;
    for field in fields {
        bits = bits.checked_add(u64::from(field.width)).ok_or(AllocError)?;
    }
    Ok(bits)
}

/// The bits of a member of `headers_t`, and one for its validity.
fn member_bits(scope: &Scope<'_>, member: &(Name, Name)) -> Result<u64, AllocError>
    ensures { IfOk result (λ bits. bits ≡ bits_of_member (before_of scope.now) member.now) }
{
    let bits = match scope.fields_of_type(&member.0) {
        Some(fields) => bits_of_fields(fields)?,
        None => 0,
    };
    bits.checked_add(1).ok_or(AllocError)
}

/// The bits of members of `headers_t` together.
pub fn members_bits(scope: &Scope<'_>, members: &[(Name, Name)]) -> Result<u64, AllocError>
    ensures { IfOk result (λ bits. bits ≡ sum_by (bits_of_member (before_of scope.now)) members.now) }
{
    let mut bits = 0u64;
    for member in members {
        bits = bits
            .checked_add(member_bits(scope, member)?)
            .ok_or(AllocError)?;
    }
    Ok(bits)
}

/// The members of `headers_t`: none, where that isn't declared.
pub fn members<'a>(decls: &'a [Decl]) -> &'a [(Name, Name)]
    ensures { result.now ≡ members_of (seen_decls decls.now) }
{
    for decl in decls {
        if let Decl::Headers(members) = decl {
            return members.as_slice();
        }
    }
    &[]
}

/// The fields of `meta_t`: none, where that isn't declared.
pub fn metadata<'a>(decls: &'a [Decl]) -> &'a [Field]
    ensures { result.now ≡ meta_fields (seen_decls decls.now) }
{
    for decl in decls {
        if let Decl::Meta(fields) = decl {
            return fields.as_slice();
        }
    }
    &[]
}

/// The header bits of a program, of which these are the declarations and the units.
pub fn header_bits(
    alloc: Global,
    known: &Known<'_>,
    decls: &[Decl],
    list: &[Unit],
) -> Result<HeaderBits, AllocError>
    requires knows { Knows known.now }
    requires same { known_decls known.now ≡ seen_decls decls.now }
    requires sound { IsSound (seen_decls decls.now) }
    requires listed { map seen_unit list.now ≡ units_of (seen_decls decls.now) }
    ensures fixed { IfOk result (λ bits. bits.fixed ≡ fixed_bits (seen_decls decls.now)) }
    ensures symbols { IfOk result (λ bits. bits.each.items ≡ symbol_bits (seen_decls decls.now)) }
{
    let fixed = members_bits(&known.scope, members(decls))?;
    let each = vec![in alloc; 0u64; known.count]?;
    let mut bits = HeaderBits { fixed, each };
    add_fields(known, &mut bits, metadata(decls))?;
    add_predicates(&mut bits, list)?;
    Ok(bits)
}
