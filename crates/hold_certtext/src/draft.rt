ghost use Rattle.std.specs.Prelude.{◌≡◌, ◌↔◌, ◌<◌, IfOk, IsTrue, length};
ghost use Rattle.hold_proof.specs.Tree.{ProofTree, preorder};
ghost use Rattle.hold_certtext.specs.inner.Parsing.{guard};
ghost use Rattle.hold_certtext.specs.inner.Reading.{add_count, add_node, certificate_of, fill, most_scale, so_far, start, step};
ghost use Rattle.hold_certtext.specs.inner.Words.{left};

use crate::kind::{Kind, kind_of};
use crate::leaf::leaf;
use crate::part::{cost, count, path, split};
use crate::stage::{Stage, next_stage};
use crate::terms::WEIGHT;
use crate::words::Words;
use hold_base::{List, Memory, VarNo};
use hold_graph::Listed;
use hold_proof::{Certificate, Claim, Node, Shape};
use std::alloc::Global;

/// What was read of a certificate so far.
#[derive(Drop)]
pub(crate) struct Draft {
    stage: Stage,
    /// The cost of a repair; none yet, or where nothing is said to meet.
    cost: Option<u64>,
    counts: Vec<(VarNo, u8)>,
    /// The least variable that may be counted next.
    least: u64,
    paths: Vec<Listed>,
    /// The nodes of the tree, in preorder.
    nodes: Vec<Node>,
    /// How many trees are still to come.
    open_trees: u64,
}

impl Draft {
    pub(crate) fn new(alloc: Global) -> Draft
        ensures { so_far result ≡ start }
    {
        Draft {
            stage: Stage::Head,
            cost: None,
            counts: Vec::new(alloc),
            least: 0,
            paths: Vec::new(alloc),
            nodes: Vec::new(alloc),
            open_trees: 1,
        }
    }

    /// Takes the next line of the text. Answers whether it can stand there; if it can't, nothing more is read.
    pub(crate) fn take(&mut self, alloc: Global, line: &[u8]) -> Result<bool, Memory>
        requires { self.old.open_trees < 18446744073709551615 }
        ensures { IfOk result (λ taken. step (so_far self.old) line.now ≡ guard taken (so_far self.new)) }
    {
        let mut words = Words::new(line);
        let Some(word) = words.next() else {
            return Ok(false);
        };
        let Some(kind) = kind_of(word) else {
            return Ok(false);
        };
        let Some(stage) = next_stage(self.stage, kind) else {
            return Ok(false);
        };
        self.stage = stage;
        self.fill(alloc, kind, words)
    }

    /// Whether the last line was taken.
    pub(crate) fn is_whole(&self) -> bool
        ensures { IsTrue result ↔ (self.now.stage ≡ Stage.Whole) }
    {
        self.stage == Stage::Whole
    }

    /// The certificate, once the nodes are a tree's.
    pub(crate) fn finish(self) -> Certificate
        requires { (tree : ProofTree) × (preorder tree ≡ self.nodes.items) }
        ensures tree { preorder result.tree ≡ self.nodes.items }
        ensures value { result ≡ certificate_of (so_far self) result.tree }
    {
        let Draft {
            cost,
            counts,
            paths,
            nodes,
            stage: _,
            least: _,
            open_trees: _,
        } = self;
        let claim = match cost {
            Some(cost) => Claim::Repaired {
                cost,
                counts: List::from_vec(counts),
            },
            None => Claim::Infeasible,
        };
        Certificate {
            claim,
            paths: List::from_vec(paths),
            tree: Shape::make(nodes).unwrap(),
        }
    }

    /// Takes the words behind the first one of a line of this kind.
    fn fill(&mut self, alloc: Global, kind: Kind, words: Words<'_>) -> Result<bool, Memory>
        requires { self.old.open_trees < 18446744073709551615 }
        ensures { IfOk result (λ taken. fill (so_far self.old) kind (left words.entry) ≡ guard taken (so_far self.new)) }
    {
        match kind {
            Kind::Head => Ok(words.is_word(b"1")),
            Kind::Repaired => Ok(self.fill_cost(words)),
            Kind::Infeasible => Ok(words.is_done()),
            Kind::Count => self.fill_count(words),
            Kind::Path => self.fill_path(alloc, words),
            Kind::Split => self.fill_split(words),
            Kind::Leaf => self.fill_leaf(alloc, words),
            Kind::End => Ok(words.is_done() && self.open_trees == 0),
        }
    }

    fn fill_cost(&mut self, words: Words<'_>) -> bool
        ensures { fill (so_far self.old) Kind.Repaired (left words.entry) ≡ guard result (so_far self.new) }
    {
        let Some(cost) = cost(words) else {
            return false;
        };
        self.cost = Some(cost);
        true
    }

    fn fill_count(&mut self, words: Words<'_>) -> Result<bool, Memory>
        ensures { IfOk result (λ taken. fill (so_far self.old) Kind.Count (left words.entry) ≡ guard taken (so_far self.new)) }
    {
        let Some((var, count)) = count(words) else {
            return Ok(false);
        };
        if u64::from(var.0) < self.least {
            return Ok(false);
        }
        self.counts.push((var, count))?;
        self.least = u64::from(var.0) + 1;
        Ok(true)
    }

    fn fill_path(&mut self, alloc: Global, words: Words<'_>) -> Result<bool, Memory>
        ensures { IfOk result (λ taken. fill (so_far self.old) Kind.Path (left words.entry) ≡ guard taken (so_far self.new)) }
    {
        let Some(path) = path(alloc, words)? else {
            return Ok(false);
        };
        self.paths.push(path)?;
        Ok(true)
    }

    fn fill_split(&mut self, words: Words<'_>) -> Result<bool, Memory>
        requires { self.old.open_trees < 18446744073709551615 }
        ensures { IfOk result (λ taken. fill (so_far self.old) Kind.Split (left words.entry) ≡ guard taken (so_far self.new)) }
    {
        let Some(node) = split(words) else {
            return Ok(false);
        };
        self.add_node(node)
    }

    fn fill_leaf(&mut self, alloc: Global, words: Words<'_>) -> Result<bool, Memory>
        requires { self.old.open_trees < 18446744073709551615 }
        ensures { IfOk result (λ taken. fill (so_far self.old) Kind.Leaf (left words.entry) ≡ guard taken (so_far self.new)) }
    {
        let path_count = self.paths.len() as u64;
        let Some(leaf) = leaf(alloc, words, path_count, self.most_scale())? else {
            return Ok(false);
        };
        self.add_node(Node::Leaf(leaf))
    }

    /// The greatest scale of a leaf.
    fn most_scale(&self) -> u64
        ensures { result ≡ most_scale self.now.cost }
    {
        match self.cost {
            Some(_) => WEIGHT,
            None => 0,
        }
    }

    /// Adds a node where a tree is still to come.
    fn add_node(&mut self, node: Node) -> Result<bool, Memory>
        requires { self.old.open_trees < 18446744073709551615 }
        ensures { IfOk result (λ taken. add_node (so_far self.old) node ≡ guard taken (so_far self.new)) }
    {
        if self.open_trees == 0 {
            return Ok(false);
        }
        match &node {
            Node::Split { .. } => self.open_trees += 1,
            Node::Leaf(_) => self.open_trees -= 1,
        }
        self.nodes.push(node)?;
        Ok(true)
    }
}
