ghost use Rattle.tree.specs.Laws.{TreeLaws};

// How the tree orders its rows. It does nothing: its contract is the laws.
pub fn tree_stands()
    ensures { TreeLaws }
{}
