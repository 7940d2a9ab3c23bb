ghost use Rattle.std.specs.Prelude.{◌≡◌, ◌≢◌, ◌↔◌, ◌<◌, Some, IsTrue, IfSome, IfNone};
ghost use Rattle.hold_proof.specs.Tree.{ProofTree, preorder};
ghost use Rattle.hold_proof.specs.inner.Forest.{counted, tree_count};

use crate::node::Node;
use std::marker::Model;

/// A proof tree, kept as the list of its nodes in preorder. A contract sees the tree.
#[derive(Drop)]
pub struct Shape {
    nodes: Vec<Node>,
}

impl Model for Shape {
    ghost use Rattle.std.specs.Prelude.{◌≡◌};
    ghost use Rattle.hold_proof.specs.Tree.{ProofTree, preorder};
    ghost use Rattle.hold_proof.specs.inner.Forest.{tree_of, tree_code};

    ghost Value = { ProofTree };

    ghost coded = { tree_code };

    ghost view = { λ s. tree_of s.nodes.items };

    ghost invariant = { λ s. preorder (tree_of s.nodes.items) ≡ s.nodes.items };
}

impl Shape {
    /// The tree that has these nodes in preorder, None where no tree has. Takes no memory.
    pub fn make(nodes: Vec<Node>) -> Option<Shape>
        ensures made { IfSome result (λ tree. preorder tree ≡ nodes.items) }
        ensures none { IfNone result ((tree : ProofTree) → preorder tree ≢ nodes.items) }
    {
        if is_one_tree(nodes.as_slice()) {
            Some(Shape { nodes })
        } else {
            None
        }
    }

    /// Lends the nodes in preorder.
    pub fn nodes(&self) -> &[Node]
        ensures { preorder self.now ≡ result.now }
    {
        self.nodes.as_slice()
    }
}

/// How many trees there are once the node stands before so many, None where it is a split that finds no two.
fn counted(node: &Node, trees: usize) -> Option<usize>
    requires room { trees < 18446744073709551615 }
    ensures { result ≡ counted node.now trees }
{
    match node {
        Node::Leaf(_) => Some(trees + 1),
        Node::Split { .. } => {
            if trees < 2 {
                return None;
            }
            Some(trees - 1)
        }
    }
}

/// Whether the nodes are one tree's. It counts the trees that the last nodes spell, for more and more of them.
fn is_one_tree(nodes: &[Node]) -> bool
    ensures { IsTrue result ↔ (tree_count nodes.now ≡ Some 1) }
{
    let mut trees = 0;
    let mut at = nodes.len();
    while at > 0 {
        at -= 1;
        let Some(now) = counted(&nodes[at], trees) else {
            return false;
        };
        trees = now;
    }
    trees == 1
}
