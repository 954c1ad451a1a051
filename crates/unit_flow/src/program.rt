//! The units of a checked program.

ghost use Rattle.std.specs.Prelude.{◌≡◌, IfOk, IfErr, map};
ghost use Rattle.elastic_ast.specs.Seen.{seen_decls};
ghost use Rattle.elastic_ast.specs.Sizes.SizeSums.{symbols_of};
ghost use Rattle.elastic_ast.specs.Units.SeenUnits.{seen_unit, seen_units};
ghost use Rattle.elastic_ast.specs.Units.UnitsOf.{UnitsOf, OpsFit, units_of};
ghost use Rattle.unit_flow.specs.Knowing.{Knows, known_decls};
ghost use Rattle.unit_flow.specs.CountedUnits.{AreCounted};
ghost use Rattle.unit_flow.specs.OwnLocations.{OwnLocations};
ghost use Rattle.unit_flow.specs.SoundUnits.{SoundUnits};
ghost use Rattle.unit_flow.specs.TermsOf.{AreTermsOf};
ghost use Rattle.unit_flow.specs.TooLarge.{AreFitting, IsFirstTooLarge};

use crate::body::main_body;
use crate::header::{HeaderBits, header_bits};
use crate::limit::UnitError;
use crate::listing::list_units;
use crate::naming::Known;
use crate::summaries::summarize;
use elastic_ast::{Decl, Terms, Unit, Units};
use elx_bits::{Items, Name};
use size_terms::Places;
use std::alloc::{AllocError, Global};
use unit_parts::cut_body;
use width_check::{Checked, program, scope};

/// The units of a program with the header bits that it takes.
#[derive(Drop)]
struct CountedUnits {
    list: Items<Unit>,
    bits: HeaderBits,
}

/// What the units of a program ask of it, where these are its symbols.
fn known_of<'a>(
    alloc: Global,
    checked: &'a Checked,
    symbols: &'a [Name],
) -> Result<Known<'a>, AllocError>
    requires { symbols.now ≡ symbols_of (seen_decls checked.now) }
    ensures decls { IfOk result (λ known. known_decls known ≡ seen_decls checked.now) }
    ensures knows { IfOk result Knows }
{
    let scope = scope(checked);
    let places = Places::of(alloc, symbols)?;
    let summaries = summarize(alloc, &scope, program(checked).decls.as_slice())?;
    Ok(Known {
        scope,
        places,
        count: symbols.len(),
        summaries,
    })
}

/// The units of declarations, if none of them has more operators than this.
fn listed_units<'a>(
    alloc: Global,
    known: &Known<'a>,
    decls: &'a [Decl],
    most: u32,
) -> Result<Items<Unit>, UnitError>
    requires knows { Knows known.now }
    requires same { known_decls known.now ≡ seen_decls decls.now }
    ensures listed { IfOk result (λ list. map seen_unit list ≡ units_of (seen_decls decls.now)) }
    ensures fits { IfOk result (λ list. AreFitting most (map seen_unit list)) }
    ensures refused { IfErr result (IsFirstTooLarge (units_of (seen_decls decls.now)) most) }
{
    let Ok(pieces) = cut_body(alloc, main_body(decls)) else {
        return Err(UnitError::Memory);
    };
    list_units(alloc, known, pieces.as_slice(), most)
}

/// The units of a program, if none of them has more operators than this, with the header bits that it takes, where these are
/// its symbols.
fn counted_units(
    alloc: Global,
    checked: &Checked,
    symbols: &[Name],
    most: u32,
) -> Result<CountedUnits, UnitError>
    requires { symbols.now ≡ symbols_of (seen_decls checked.now) }
    ensures counted { IfOk result (AreCounted (seen_decls checked.now) most) }
    ensures refused { IfErr result (IsFirstTooLarge (units_of (seen_decls checked.now)) most) }
{
    let decls = program(checked).decls.as_slice();
    let Ok(known) = known_of(alloc, checked, symbols) else {
        return Err(UnitError::Memory);
    };
    let list = listed_units(alloc, &known, decls, most)?;
    let Ok(bits) = header_bits(alloc, &known, decls, list.as_slice()) else {
        return Err(UnitError::Memory);
    };
    Ok(CountedUnits { list, bits })
}

/// The units of a program, in the order of the text, with the terms that are given, which are those of the program, and with
/// the header bits that it takes. Symbols, step tables and numbers of cells are as later steps need them, and what a unit names
/// as own is an element that its index is within. The first unit that has more operators than `ops` is refused, with its
/// number; the one other error is want of memory.
pub fn units(alloc: Global, checked: &Checked, terms: Terms, ops: u32) -> Result<Units, UnitError>
    requires { AreTermsOf (seen_decls checked.now) terms }
    ensures units { IfOk result (λ units. UnitsOf (seen_decls checked.now) (seen_units units)) }
    ensures terms { IfOk result (λ units. units.terms ≡ terms) }
    ensures sound { IfOk result (λ units. SoundUnits (seen_units units)) }
    ensures own { IfOk result (λ units. OwnLocations (seen_decls checked.now) (map seen_unit units.list)) }
    ensures fits { IfOk result (λ _. OpsFit (seen_decls checked.now) ops) }
    ensures refused { IfErr result (IsFirstTooLarge (units_of (seen_decls checked.now)) ops) }
{
    let CountedUnits { list, bits } = counted_units(alloc, checked, terms.symbols.as_slice(), ops)?;
    // A checked program is typed.
    let _ = program(checked);
    let HeaderBits { fixed, each } = bits;
    Ok(Units {
        terms,
        list,
        fixed_bits: fixed,
        symbol_bits: Items::from_vec(each),
    })
}
