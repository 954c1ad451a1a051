//! The names of the rules of types.

ghost use Rattle.std.specs.Prelude.{◌≡◌};
ghost use Rattle.p4all_top.specs.RuleNames.{rule_text};

use width_check::Rule;

/// The name of a rule, as a refusal gives it.
pub fn rule_name(rule: Rule) -> &'static str
    ensures { result.now ≡ rule_text rule }
{
    match rule {
        Rule::UnknownName => "UnknownName",
        Rule::Twice => "Twice",
        Rule::Width => "Width",
        Rule::NoWidth => "NoWidth",
        Rule::LiteralTooWide => "LiteralTooWide",
        Rule::NotBool => "NotBool",
        Rule::NotConst => "NotConst",
        Rule::BadIndex => "BadIndex",
        Rule::BadAmount => "BadAmount",
        Rule::BadTerm => "BadTerm",
        Rule::BadSlice => "BadSlice",
        Rule::OddHeader => "OddHeader",
        Rule::NestedLoop => "NestedLoop",
        Rule::RegisterTwice => "RegisterTwice",
        Rule::RegisterUnused => "RegisterUnused",
        Rule::RegisterInTable => "RegisterInTable",
        Rule::BadKey => "BadKey",
        Rule::BadEntries => "BadEntries",
        Rule::BadCall => "BadCall",
        Rule::ParserLoop => "ParserLoop",
        Rule::ReservedName => "ReservedName",
        Rule::NoMain => "NoMain",
    }
}
