//! Laws of the grammar of whole programs, each the contract of an empty function.

ghost use Rattle.p4_parser.specs.Laws.{ActionsArePlain, BranchesHaveBrackets, DeclarationsAreFew, IfsAreOpen, NoTableHasTwoKeys, StatementsDeeper, ProgramsDeeper, StatementsOpen, ProgramsOpen, BegunOpens, BegunOpensJust};

/// An `if` without `else` is always open, and so, as the first branch of an `if` with `else`, it has brackets around it.
pub fn law_of_open_ends()
    ensures branch { BranchesHaveBrackets }
    ensures alone { IfsAreOpen }
{}

/// No table is spelled with a key property behind a key property, even where both are empty.
pub fn no_table_has_two_key_properties()
    ensures { NoTableHasTwoKeys }
{}

/// A program has at most as many declarations as words.
pub fn law_of_few_declarations()
    ensures { DeclarationsAreFew }
{}

/// What is spelled within a depth is spelled within each greater one.
pub fn law_of_greater_depths()
    ensures statements { StatementsDeeper }
    ensures programs { ProgramsDeeper }
{}

/// No more brackets are open at a word of statements or of a program than the depth says, under which it is spelled.
pub fn law_of_open_brackets()
    ensures statements { StatementsOpen }
    ensures programs { ProgramsOpen }
{}

/// What is begun of statements has no more brackets open than it counts, and just as many where no `if` stands in it.
pub fn law_of_begun_statements()
    ensures at_most { BegunOpens }
    ensures without_if { BegunOpensJust }
{}

/// The body of an action has plain statements alone: no block, branch, loop, call or application.
pub fn law_of_action_bodies()
    ensures { ActionsArePlain }
{}
