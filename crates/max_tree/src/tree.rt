//! The tree.

ghost use Rattle.std.specs.Prelude.{◌≡◌, ◌⊎◌, ℕ, ◌+◌, ◌*◌, ◌^◌, ◌<◌, ◌≤◌, length, replicate, drop, slice_set, slice_index, slice_index_or, IfOk, IfSome, IfNone};
ghost use Rattle.max_tree.specs.Tree.{Greatest};

use std::alloc::{AllocError, Global};
use std::marker::Model;

/// A row of numbers, 0 at first.
#[derive(Debug, Drop)]
pub struct MaxTree {
    /// How many numbers there are.
    count: usize,
    /// How many levels the tree has above its leaves.
    levels: u32,
    /// How many leaves it has, which is also the place of the first.
    leaves: usize,
    /// The root is node 1, and the children of node q are 2 * q and 2 * q + 1.
    nodes: Vec<u32>,
}

impl Model for MaxTree {
    ghost use Rattle.std.specs.Prelude.{ℕ, List, take, drop};
    ghost use Rattle.max_tree.specs.Tree.{Row};

    ghost Value = { List ℕ };

    ghost view = { λ t. take t.count (drop t.leaves t.nodes.items) };

    ghost invariant = { λ t. Row t.count t.levels t.leaves t.nodes.items };
}

impl MaxTree {
    /// `count` numbers, all 0.
    pub fn new(alloc: Global, count: u32) -> Result<MaxTree, AllocError>
        requires { count ≤ 65536 }
        ensures { IfOk result (λ row. row ≡ replicate count 0) }
    {
        let count = count as usize;
        let mut levels = 0;
        let mut leaves = 1;
        while leaves < count {
            leaves *= 2;
            levels += 1;
        }
        let nodes = zeros(alloc, 2 * leaves)?;
        Ok(MaxTree {
            count,
            levels,
            leaves,
            nodes,
        })
    }

    /// The number at a place; 0 behind the last.
    pub fn get(&self, at: u32) -> u32
        ensures { result ≡ slice_index self.now at }
    {
        let at = at as usize;
        if at < self.count {
            self.nodes[self.leaves + at]
        } else {
            0
        }
    }

    /// Changes the number at a place; behind the last nothing is changed.
    pub fn set(&mut self, at: u32, value: u32)
        ensures { self.new ≡ slice_set self.old at value }
    {
        let at = at as usize;
        if at < self.count {
            put(self.nodes.as_mut_slice(), self.leaves, at, value);
        }
    }

    /// The first place whose number is at least `least`.
    pub fn first_at_least(&self, least: u32) -> Option<u32>
        requires { 0 < least }
        ensures found { IfSome result (λ at. least ≤ slice_index self.now at) }
        ensures first { IfSome result (λ at. (k : ℕ) → k < at → slice_index self.now k < least) }
        ensures none { IfNone result ((k : ℕ) → slice_index self.now k < least) }
    {
        let nodes = self.nodes.as_slice();
        if nodes[1] < least {
            return None;
        }
        let at = descend(nodes, self.leaves, self.levels, least) - self.leaves;
        if at < self.count {
            Some(at as u32)
        } else {
            None
        }
    }
}

/// So many zeros.
fn zeros(alloc: Global, count: usize) -> Result<Vec<u32>, AllocError>
    ensures { IfOk result (λ v. v.items ≡ replicate count 0) }
{
    let mut nodes = Vec::with_capacity(alloc, count)?;
    for _node in 0..count {
        nodes.push_reserved(0);
    }
    Ok(nodes)
}

/// Changes the leaf number `at`, and what stands above it: what is above a node that stays the same stays too.
fn put(nodes: &mut [u32], leaves: usize, at: usize, value: u32)
    requires tree { Greatest leaves nodes.old }
    requires inside { at < leaves }
    requires small { leaves ≤ 131072 }
    ensures tree { Greatest leaves nodes.new }
    ensures leaves { drop leaves nodes.new ≡ slice_set (drop leaves nodes.old) at value }
{
    let mut node = leaves + at;
    nodes[node] = value;
    while node > 1 {
        node /= 2;
        let greater = nodes[2 * node].max(nodes[2 * node + 1]);
        if nodes[node] == greater {
            return;
        }
        nodes[node] = greater;
    }
}

/// The first leaf that is at least `least`, as a node.
fn descend(nodes: &[u32], leaves: usize, levels: u32, least: u32) -> usize
    requires tree { Greatest leaves nodes.now }
    requires power { leaves ≡ 2 ^ levels }
    requires small { leaves ≤ 131072 }
    requires some { least ≤ slice_index nodes.now 1 }
    ensures leaf { leaves ≤ result }
    ensures within { result < 2 * leaves }
    ensures found { least ≤ slice_index nodes.now result }
    ensures first { (j : ℕ) → leaves ≤ j → j < result → slice_index nodes.now j < least }
{
    let mut node = 1;
    for _level in 0..levels {
        node = child(nodes, node, least);
    }
    node
}

/// The first child, if it is at least `least`, and else the second.
fn child(nodes: &[u32], node: usize, least: u32) -> usize
    requires inside { 2 * node + 1 < length nodes.now }
    requires small { node ≤ 131072 }
    ensures { ((result ≡ 2 * node) × (least ≤ slice_index nodes.now (2 * node))) ⊎ ((result ≡ 2 * node + 1) × (slice_index nodes.now (2 * node) < least)) }
{
    let first = 2 * node;
    if nodes[first] < least {
        first + 1
    } else {
        first
    }
}
