//! Laws of what a unit spells: empty functions whose contracts state them.

ghost use Rattle.c_tree.specs.Nodes.{NodesAreAsMany, NodesAreFew, NumbersAreLow};
ghost use Rattle.c_tree.specs.Printed.{
  LinesAreTokens,
  LinesAreUnit,
  RestFollows,
  SpellsTokens,
  TextLexes,
  UnitIsEach,
};

/// A unit spells what each of its external declarations spells, one after another.
pub fn put_law()
    ensures rest { RestFollows }
    ensures each { UnitIsEach }
    ensures lines { LinesAreUnit }
{}

/// A well-formed unit spells tokens of C only.
pub fn valid_law()
    ensures tokens { SpellsTokens }
    ensures lines { LinesAreTokens }
{}

/// The text of a well-formed unit, a line for each external declaration, is read as the tokens that the unit spells.
pub fn print_law()
    ensures { TextLexes }
{}

/// A well-formed unit has at most one node for each token that it spells, an absent name counted as a node too;
/// `int f(int *);` has as many. So where the nodes have the numbers 0, 1, 2 .., each number is less than the
/// count of the tokens.
pub fn nodes_law()
    ensures few { NodesAreFew }
    ensures low { NumbersAreLow }
    ensures as_many { NodesAreAsMany }
{}
