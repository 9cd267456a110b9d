// A store as a search tree: from each node a key's search goes on to the lower side or to the higher one.
#![tactic(auto)]

ghost use Rattle.std.specs.Prelude.{◌≡◌, ℕ, ◌<◌};
ghost use Rattle.store.specs.Table.{Made};
ghost use Rattle.arrayvec.specs.ArrayVec.{array_vec_len};
ghost use Rattle.tree.specs.Nodes.{changed, grown, Descent};
ghost use Rattle.tree.specs.Means.{tree_table};
ghost use Rattle.tree.specs.Counts.{counts};

pub mod arena;
pub mod laws;
pub mod node;

use arena::Tree;
use arrayvec::ArrayVec;
use node::Node;
use store::{Entry, Row, Store};
use values::refusal::Refusal;

// The node at p gets another row.
fn change(nodes: &mut ArrayVec<Node, 64>, p: usize, row: Row)
    requires { p < array_vec_len nodes.old }
    ensures { nodes.new.items ≡ changed nodes.old.items p row }
{
    nodes[p].entry.row = row;
}

// The node at p leads to a new one.
fn grow(nodes: &mut ArrayVec<Node, 64>, p: usize, entry: Entry)
    requires there { p < array_vec_len nodes.old }
    requires room { array_vec_len nodes.old < 64 }
    ensures { nodes.new.items ≡ grown nodes.old.items p entry.key entry.row }
{
    nodes[p] = nodes[p].linked(entry.key, nodes.len());
    nodes.push(Node::leaf(entry));
}

impl Tree {
    // An empty tree for 1 to 64 rows.
    pub fn new(capacity: usize) -> Result<Tree, Refusal>
        ensures { Made tree_table capacity result }
    {
        Ok(Tree {
            nodes: ArrayVec::new(),
            capacity: capacity.try_into()?,
        })
    }

    // The node where the descent for the key ends: that of the key, or else the one that would lead to it.
    fn place(&self, key: u32) -> usize
        requires { 0 < array_vec_len self.now.nodes }
        ensures { Descent self.now.nodes.items key result }
    {
        let mut p = 0;
        while let Some(c) = self.nodes[p].next(key) {
            p = c;
        }
        p
    }
}

impl Store for Tree {
    ghost table = { tree_table };

    ghost counted = { counts };

    fn find(&self, key: u32) -> Option<Row> {
        if self.nodes.is_empty() {
            return None;
        }
        let p = self.place(key);
        self.nodes[p].entry.row_for(key)
    }

    fn put(&mut self, key: u32, row: Row) -> Result<(), Refusal> {
        if self.nodes.is_empty() {
            self.nodes.push(Node::leaf(Entry { key, row }));
            return Ok(());
        }
        let p = self.place(key);
        if self.nodes[p].entry.key == key {
            change(&mut self.nodes, p, row);
            return Ok(());
        }
        if self.nodes.len() == self.capacity.rows() {
            return Err(Refusal::StoreFull { key });
        }
        grow(&mut self.nodes, p, Entry { key, row });
        Ok(())
    }

    // Here the length of the list, in a hashed table the count of the rows: nothing to share but the subtraction.
    fn free(&self) -> usize {
        self.capacity.rows() - self.nodes.len()
    }
}
