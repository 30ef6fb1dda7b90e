//! What holds of all nodes and changes. The functions do nothing: each has a law as its contract.
ghost use Rattle.sled_bytes.specs.Reading.{NodeIsReadAgain, ChangeIsReadAgain, ChangesAreReadAgain};

/// Does nothing. What `encode_node` writes of a node is read as that node, whatever follows it.
#[tactic(auto, using(crate::proofs::Again::node_again))]
pub fn law_node()
    ensures { NodeIsReadAgain }
{}

/// Does nothing. What `encode_change` writes of a change is read as that change, whatever follows it.
#[tactic(auto, using(crate::proofs::Again::change_again))]
pub fn law_change()
    ensures { ChangeIsReadAgain }
{}

/// Does nothing. What `encode_change` writes of changes, one after the other, is read as these changes.
#[tactic(auto, using(crate::proofs::Again::changes_again))]
pub fn law_changes()
    ensures { ChangesAreReadAgain }
{}
