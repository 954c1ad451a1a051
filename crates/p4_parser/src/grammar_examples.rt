//! Examples of what the grammar of whole programs spells and of what it doesn't, each the contract of an empty function.

ghost use Rattle.std.specs.Prelude.{◌≡◌, ℕ};
ghost use Rattle.elastic_ast.specs.Tree.{PlainTable, PlainProgram};
ghost use Rattle.spelling.specs.Brackets.{most_open};
ghost use Rattle.p4_tables.specs.Tables.{SpellsTable};
ghost use Rattle.p4_statements.specs.Statements.{SpellsStmts};
ghost use Rattle.p4_parser.specs.Declarations.{SpellsProgram};
ghost use Rattle.p4_parser.specs.ExampleLaws.{InnerElse, StageInBranch, TouchingClosings, NoIfAtNone, NoIfElseAtNone, ConditionsNeedDepth, BracketsNeedDepth};
ghost use Rattle.p4_parser.specs.WorkedTexts.{worked_declarations, worked_declarations_tree, worked_parser, worked_parser_tree, worked_control, worked_control_tree, worked_end, worked_end_tree};
ghost use Rattle.p4_parser.specs.Examples.{wider_number, too_wide, two_empty_keys, only, conditions, bracketed_conditions, bare_conditions};

/// An `else` behind two `if` belongs to the inner one. Each branch is one statement without brackets, and counts as one.
pub fn else_goes_to_the_inner_if()
    ensures { InnerElse }
{}

/// A block of a stage is one statement of a branch, and the branch counts as one more bracket.
pub fn block_of_a_stage_is_one_statement()
    ensures { StageInBranch }
{}

/// Two signs `>` that touch may close two types.
pub fn touching_signs_close_two_types()
    ensures { TouchingClosings }
{}

/// A constant whose number has another width than the constant is no program.
pub fn no_constant_has_a_number_of_another_width()
    ensures { (depth : ℕ) (program : PlainProgram) → SpellsProgram depth program wider_number → ⊥ }
{}

/// A number that doesn't fit its place in the tree is no program: a width of 256.
pub fn no_width_is_too_wide()
    ensures { (depth : ℕ) (program : PlainProgram) → SpellsProgram depth program too_wide → ⊥ }
{}

/// A table with two properties of one kind isn't spelled, even where both are empty.
pub fn no_table_has_two_empty_keys()
    ensures { (depth : ℕ) (table : PlainTable) → SpellsTable depth table two_empty_keys → ⊥ }
{}

/// Where no bracket may be open, no condition is spelled.
pub fn no_condition_without_depth()
    ensures alone { NoIfAtNone }
    ensures with_else { NoIfElseAtNone }
{}

/// So many conditions, each within the one before, are spelled at a depth of their number, with brackets around each branch or
/// without any. No words spell them at a smaller depth, and the words with brackets spell nothing at one.
pub fn conditions_need_a_depth_of_their_number()
    ensures bracketed { (n : ℕ) → SpellsStmts n (only (conditions n)) (bracketed_conditions n) }
    ensures bare { (n : ℕ) → SpellsStmts n (only (conditions n)) (bare_conditions n) }
    ensures tree { ConditionsNeedDepth }
    ensures words { BracketsNeedDepth }
{}

/// Declarations that together use every alternative of the grammar, with their trees. The control has 5 brackets open at once.
pub fn worked_declarations_are_spelled()
    ensures declarations { SpellsProgram 2 worked_declarations_tree worked_declarations }
    ensures of_a_parser { SpellsProgram 3 worked_parser_tree worked_parser }
    ensures of_a_control { SpellsProgram 5 worked_control_tree worked_control }
    ensures open_in_the_control { most_open worked_control ≡ 5 }
    ensures end { SpellsProgram 3 worked_end_tree worked_end }
{}
