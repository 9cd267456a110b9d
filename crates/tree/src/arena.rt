ghost use Rattle.std.specs.Prelude.{ℕ, ◌≤◌};
ghost use Rattle.arrayvec.specs.ArrayVec.{array_vec_len};
ghost use Rattle.tree.specs.Nodes.{Reached, Linked};

use crate::node::Node;
use arrayvec::ArrayVec;
use store::capacity::Capacity;

// At most `capacity` rows. The root is node 0.
// The nodes lie in one array and name each other by their places, so that no put allocates.
#[derive(Drop)]
pub struct Tree {
    pub(crate) nodes: ArrayVec<Node, 64>,
    pub(crate) capacity: Capacity,
    ghost reached: { Reached nodes.items },
    ghost linked: { Linked nodes.items },
    ghost bound: { array_vec_len nodes ≤ capacity.rows },
}
