ghost use Rattle.std.specs.Prelude.{◌≡◌};
ghost use Rattle.tree.specs.Nodes.{next_of, linked_to, leaf_of};

use store::Entry;

// The links lead to the nodes of lower and of higher keys.
#[derive(Clone, Copy, Default)]
pub struct Node {
    pub(crate) entry: Entry,
    pub(crate) lower: Option<usize>,
    pub(crate) higher: Option<usize>,
}

impl Node {
    pub(crate) fn leaf(entry: Entry) -> Node
        ensures { result ≡ leaf_of entry.key entry.row }
    {
        Node {
            entry,
            lower: None,
            higher: None,
        }
    }

    // Where the descent for the key goes on: nowhere if the key is here, or has no link on its side.
    // Two comparisons: a match on `cmp` makes a search half as long again.
    pub(crate) fn next(self, key: u32) -> Option<usize>
        ensures { result ≡ next_of self key }
    {
        if key < self.entry.key {
            self.lower
        } else if key > self.entry.key {
            self.higher
        } else {
            None
        }
    }

    // The node with its link on the side of the key set.
    pub(crate) fn linked(self, key: u32, to: usize) -> Node
        ensures { result ≡ linked_to self key to }
    {
        if key < self.entry.key {
            Node {
                lower: Some(to),
                ..self
            }
        } else {
            Node {
                higher: Some(to),
                ..self
            }
        }
    }
}
