// Theorems that several crates need. Each function does nothing; its contract is a theorem, and the proofs of other crates cite it.
#![tactic(auto)]

ghost use Rattle.theory.specs.Statements.{RuleAtEachEntry, FewBelow, FillsOneMore, AccumulatesOneMore, EndianInverse};

// A table whose computed test holds has its rule at each entry.
pub fn rule_at_each_entry()
    ensures { RuleAtEachEntry }
{}

// Pairwise different numbers below n are at most n.
pub fn few_below()
    ensures { FewBelow }
{}

// Big- and little-endian bytes and numbers are inverse to each other.
pub fn endian_inverse()
    ensures { EndianInverse }
{}

// A loop that writes f i at place i has, after each turn, one place more.
pub fn fills_one_more<T>()
    ensures { FillsOneMore T }
{}

// A loop that carries a value from place to place has, after each turn, one place less to go.
pub fn accumulates_one_more<T, U>()
    ensures { AccumulatesOneMore T U }
{}
