//! What a step tells.
use node_core::Output;

/// What a member tells after a step, in its order. All that it rests on is on the disk.
#[derive(Drop)]
pub struct Outputs {
    pub list: Vec<Output>,
}
