//! Why a declaration is refused, and the names of one scope.

ghost use Rattle.std.specs.Prelude.{◌≡◌, [], ◌∷◌, ◌++◌, IfErr, OnErr, OnOk, None};
ghost use Rattle.decl_check.specs.Refusals.{NamesRule, RefusedBy, IsTableOf, PassesOn};
ghost use Rattle.elastic_ast.specs.Typing.Scope.{among};
ghost use Rattle.decl_check.specs.FirstRules.{one_breaks};
ghost use Rattle.decl_check.specs.NamedParts.{behind};

use elastic_ast::Rule;
use elx_bits::Name;
use expr_types::broken_name;
use program_names::NamePlaces;

/// Why a declaration is refused: a rule that it breaks, or no memory.
#[derive(Clone, Copy, Debug, PartialEq, Eq)]
pub enum Refusal {
    Broken(Rule),
    Memory,
}

/// Whether a name is the one that stands first, if there is one, or among those behind it.
fn is_declared(first: Option<&Name>, names: &NamePlaces, name: &Name) -> bool
    ensures { result ≡ among (behind first.entry names.now) name.now }
{
    match first {
        Some(first) => name.as_slice() == first.as_slice() || names.has(name),
        None => names.has(name),
    }
}

/// Adds a name to those of its scope, if it may be declared there. Else they stay.
pub fn put(names: &mut NamePlaces, name: &Name, allow_reserved: bool) -> Result<(), Refusal>
    ensures added { OnOk result (names.new ≡ names.old ++ name.now ∷ []) }
    ensures fresh { OnOk result (one_breaks allow_reserved names.old name.now ≡ None) }
    ensures refused { RefusedBy (one_breaks allow_reserved names.old name.now) result }
    ensures kept { OnErr result (names.new ≡ names.old) }
{
    put_behind(names, None, name, allow_reserved)
}

/// Adds a name to those behind the first one of its scope, if there is one, and if it may be declared there. Else they stay.
pub fn put_behind(
    names: &mut NamePlaces,
    first: Option<&Name>,
    name: &Name,
    allow_reserved: bool,
) -> Result<(), Refusal>
    ensures added { OnOk result (names.new ≡ names.old ++ name.now ∷ []) }
    ensures fresh { OnOk result (one_breaks allow_reserved (behind first.entry names.old) name.now ≡ None) }
    ensures refused { RefusedBy (one_breaks allow_reserved (behind first.entry names.old) name.now) result }
    ensures kept { OnErr result (names.new ≡ names.old) }
{
    let known = is_declared(first, names, name);
    if let Some(rule) = broken_name(allow_reserved, known, name.as_slice()) {
        return Err(Refusal::Broken(rule));
    }
    if names.add(name).is_err() {
        return Err(Refusal::Memory);
    }
    Ok(())
}

/// The refusal for a rule that is broken, if one is.
pub fn refusal_of(broken: Option<Rule>) -> Result<(), Refusal>
    ensures fine { OnOk result (broken ≡ None) }
    ensures refused { RefusedBy broken result }
    ensures named { IfErr result NamesRule }
{
    match broken {
        Some(rule) => Err(Refusal::Broken(rule)),
        None => Ok(()),
    }
}

/// The names of a declaration's parts, unless a rule is broken.
pub fn with_parts(parts: NamePlaces, broken: Option<Rule>) -> Result<NamePlaces, Refusal>
    ensures parts { IsTableOf parts result }
    ensures fine { PassesOn broken result }
    ensures refused { RefusedBy broken result }
    ensures named { IfErr result NamesRule }
{
    match broken {
        Some(rule) => Err(Refusal::Broken(rule)),
        None => Ok(parts),
    }
}
