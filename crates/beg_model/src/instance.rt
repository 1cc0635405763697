// A rule at a node, in the list of a chosen cover.
use smallvec::SmallVec;
use std::marker::Model;

/// A rule at a node, as it stands in a list of instances.
#[derive(Drop)]
pub struct Instance {
    pub rule: u32,
    pub node: u32,
    /// The places in the list of the instances that are its operands, from 0.
    pub operands: SmallVec<u32, 4>,
}

impl Model for Instance {
    ghost use Rattle.beg_model.specs.Cover.{Instance as Standing};

    ghost Value = { Standing };

    ghost view = { λ i. record { rule = i.rule; node = i.node; operands = i.operands.items } };
}
