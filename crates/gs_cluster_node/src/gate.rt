use gs_msg::NodeId;

/// What is told of each step of a node: that it begins, under its lock, and that it is done, behind that. Steps of a node are counted
/// from 0.
pub trait Gate {
    fn enter(&self, node: NodeId, step: u64);

    fn leave(&self, node: NodeId, step: u64);
}

/// A gate that does nothing.
#[derive(Clone, Copy, Debug)]
pub struct Open;

impl Gate for Open {
    fn enter(&self, _node: NodeId, _step: u64) {}

    fn leave(&self, _node: NodeId, _step: u64) {}
}
