//! What a typed program has, as laws over the definitions.

ghost use Rattle.elastic_laws.specs.Typing.KnownTypes.{TypesAreKnownAndWide};
ghost use Rattle.elastic_laws.specs.Typing.TypedPrograms.{OfEachTyped, MeetsPremises, EndsWithHeaders, RunsWhatItLists, HasRegistersApart};

/// A typed program meets the premises of the laws of units and packets: no loop stands in a loop of its body, its tables run
/// the actions that they list, its parser extracts headers alone whose fields have names that differ, and no state of the
/// parser comes back.
pub fn typed_programs_meet_the_premises()
    ensures { OfEachTyped MeetsPremises }
{}

/// No state of the parser that `main` names comes back to itself, and what it extracts or the deparser emits is a header.
pub fn parsers_end_and_headers_are_declared()
    ensures { OfEachTyped EndsWithHeaders }
{}

/// A table runs the actions that it lists, or `NoAction` as its default, which no control declares.
pub fn tables_run_what_they_list()
    ensures { OfEachTyped RunsWhatItLists }
{}

/// No two units name one register, a unit names one at most, and a unit in a loop names one of an array.
pub fn registers_are_apart()
    ensures { OfEachTyped HasRegistersApart }
{}

/// What is typed in a scope of a typed program has a known type, and bits have a width from 1 to 128.
pub fn types_are_known_and_wide()
    ensures { TypesAreKnownAndWide }
{}
