// What matching a rule finds: its operands and the values of its variables.
ghost use Rattle.std.specs.Prelude.{◌≡◌, ◌<◌, ◌≤◌, [], ◌∷◌, ◌++◌, length};

use std::marker::Model;
use value_store::Value;

/// How many operands, and how many variables, a rule has at most.
const MOST: usize = 128;

/// A node and the nonterminal that it is to be covered for.
#[derive(Clone, Copy, Debug, PartialEq, Eq)]
pub struct Subgoal {
    pub node: u32,
    pub nonterminal: u32,
}

/// The operands and the values of variables that a pattern has at a node, from left to right. There
/// is room for those of any rule, so that matching takes no memory.
#[derive(Drop)]
pub struct Matched {
    operands: [Subgoal; 128],
    operand_count: usize,
    values: [Value; 128],
    value_count: usize,
}

impl Model for Matched {
    ghost use Rattle.std.specs.Prelude.{take, ◌≤◌};
    ghost use Rattle.beg_model.specs.Matching.{Matches};

    ghost Value = { Matches };

    ghost view = { λ m. record {
      operands = take m.operand_count m.operands;
      values = take m.value_count m.values;
    } };

    ghost invariant = { λ m. (m.operand_count ≤ 128) × (m.value_count ≤ 128) };
}

impl Matched {
    /// No operands and no variables.
    pub fn new() -> Matched
        ensures { (result.operands ≡ []) × (result.values ≡ []) }
    {
        Matched {
            operands: [Subgoal {
                node: 0,
                nonterminal: 0,
            }; 128],
            operand_count: 0,
            values: [Value::Int(0); 128],
            value_count: 0,
        }
    }

    /// Forgets all.
    pub(crate) fn clear(&mut self)
        ensures { (self.new.operands ≡ []) × (self.new.values ≡ []) }
    {
        self.operand_count = 0;
        self.value_count = 0;
    }

    /// Adds an operand, for which there is room.
    pub(crate) fn add_operand(&mut self, operand: Subgoal)
        requires { length self.old.operands < 128 }
        ensures operands { self.new.operands ≡ self.old.operands ++ operand ∷ [] }
        ensures values { self.new.values ≡ self.old.values }
    {
        self.operands[self.operand_count] = operand;
        self.operand_count += 1;
    }

    /// Adds the value of a variable, for which there is room.
    pub(crate) fn add_value(&mut self, value: Value)
        requires { length self.old.values < 128 }
        ensures values { self.new.values ≡ self.old.values ++ value ∷ [] }
        ensures operands { self.new.operands ≡ self.old.operands }
    {
        self.values[self.value_count] = value;
        self.value_count += 1;
    }

    /// The operands, from left to right.
    pub fn operands(&self) -> &[Subgoal]
        ensures is { result.now ≡ self.now.operands }
        ensures few { length result.now ≤ 128 }
    {
        &self.operands[..self.operand_count]
    }

    /// The values of the variables, from left to right.
    pub fn values(&self) -> &[Value]
        ensures is { result.now ≡ self.now.values }
        ensures few { length result.now ≤ 128 }
    {
        &self.values[..self.value_count]
    }
}
