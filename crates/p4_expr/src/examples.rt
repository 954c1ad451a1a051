//! Examples of what the grammar spells: laws over the definitions, each the contract of an empty function.

ghost use Rattle.std.specs.Prelude.{◌≡◌, ℕ, ◌≤◌, codes, drop, take};
ghost use Rattle.elastic_ast.specs.OperatorSorts.{Operator};
ghost use Rattle.elastic_ast.specs.Tree.{PlainExpr};
ghost use Rattle.p4_expr.specs.Operators.{SpellsOperator};
ghost use Rattle.p4_expr.specs.Expressions.{HasFewOperators, SpellsExpr, most_operators};
ghost use Rattle.p4_expr.specs.Examples.{and_in_equation, byte_of_name, byte_of_sum, four_bits};
ghost use Rattle.p4_expr.specs.Examples.{hash_of_name, levels_and_texts, name_in_brackets};
ghost use Rattle.p4_expr.specs.Examples.{operators_by_code, parted_shift, product_in_sum, shift};
ghost use Rattle.p4_expr.specs.Examples.{shift_of_sum, tree_of_and_in_equation};
ghost use Rattle.p4_expr.specs.Examples.{tree_of_byte_of_name, tree_of_byte_of_sum};
ghost use Rattle.p4_expr.specs.Examples.{tree_of_four_bits, tree_of_hash_of_name};
ghost use Rattle.p4_expr.specs.Examples.{tree_of_product_in_sum, tree_of_shift};
ghost use Rattle.p4_expr.specs.Examples.{tree_of_shift_of_sum, tree_of_turned_slice};
ghost use Rattle.p4_expr.specs.Examples.{tree_of_two_differences, tree_of_two_prefixes};
ghost use Rattle.p4_expr.specs.Examples.{tree_of_validity, turned, turned_slice, turned_words};
ghost use Rattle.p4_expr.specs.Examples.{two_differences, two_prefixes, validity};

/// The level and the text of each operator, in the order of their codes. Level 10 is the weakest.
pub fn operators_stand_at_their_levels()
    ensures { operators_by_code ≡ levels_and_texts }
{}

/// Small texts and the tree of each: a product within a sum, differences that group to the left, brackets, a shift, a slice,
/// a cast, and two prefixes. The number before a tree is how many brackets may be open.
pub fn examples_are_spelled()
    ensures sum { SpellsExpr 0 tree_of_product_in_sum product_in_sum }
    ensures differences { SpellsExpr 0 tree_of_two_differences two_differences }
    ensures brackets { SpellsExpr 1 (PlainExpr.Named (codes "a")) name_in_brackets }
    ensures shift { SpellsExpr 0 tree_of_shift shift }
    ensures slice { SpellsExpr 1 tree_of_four_bits four_bits }
    ensures cast { SpellsExpr 1 tree_of_byte_of_name byte_of_name }
    ensures prefixes { SpellsExpr 0 tree_of_two_prefixes two_prefixes }
{}

/// Two signs `>` with a space between them are no operator.
pub fn parted_signs_are_no_operator()
    ensures { (operator : Operator) → SpellsOperator operator (take 2 (drop 1 parted_shift)) → ⊥ }
{}

/// More texts and the tree of each: a shift by a sum, an equation of an `&`, a prefix before a slice, a cast of a sum in brackets,
/// a hash, and a test of a header.
pub fn more_examples_are_spelled()
    ensures shift_by_sum { SpellsExpr 0 tree_of_shift_of_sum shift_of_sum }
    ensures equation { SpellsExpr 0 tree_of_and_in_equation and_in_equation }
    ensures prefix_of_slice { SpellsExpr 1 tree_of_turned_slice turned_slice }
    ensures cast_of_sum { SpellsExpr 1 tree_of_byte_of_sum byte_of_sum }
    ensures hash { SpellsExpr 1 tree_of_hash_of_name hash_of_name }
    ensures header { SpellsExpr 1 tree_of_validity validity }
{}

/// A name behind so many prefixes is an expression, and a program may have it where these are no more than the limit.
pub fn most_operators_are_few()
    ensures spelled { (n : ℕ) → SpellsExpr 0 (turned n) (turned_words n) }
    ensures few { (n : ℕ) → n ≤ most_operators → HasFewOperators (turned n) }
    ensures no_more { (n : ℕ) → HasFewOperators (turned n) → n ≤ most_operators }
{}
