ghost use Rattle.std.specs.Prelude.{◌≡◌, ◌≤◌, ◌<◌, ◌+◌, ◌++◌, ◌∷◌, [], length, is_ok, if◌then◌else◌, IfOk, OnOk, OnErr, slice_get, Some};
ghost use Rattle.jp_tree.specs.Pools.{HasChildrenBelow, IsPool};

use jp_base::{ItemNo, Memory};
use jp_problem::{Method, Step};
use std::alloc::Global;
use std::marker::Model;

/// The number of a node in its pool.
pub type PlanId = usize;

/// A scan of an item, or a step of two trees by a method.
#[derive(Clone, Copy, Debug, PartialEq, Eq)]
pub enum PlanNode {
    Scan(ItemNo),
    Join {
        method: Method,
        step: Step,
        left: PlanId,
        right: PlanId,
    },
}

/// Plan nodes by number. Nodes are only put at its end, children before the nodes that name them, so the tree of a number
/// never changes, and trees share the parts that they have in common. Contracts see its nodes, and `spare`: how many more
/// of them it takes without memory.
#[derive(Drop)]
pub struct Pool {
    nodes: Vec<PlanNode>,
}

impl Model for Pool {
    ghost use Rattle.std.specs.Prelude.{◌-◌, vec_capacity, vec_len};
    ghost use Rattle.jp_tree.specs.Pools.{IsPool, Nodes};

    ghost Value = { Nodes };

    ghost view = { λ p. record { nodes = p.nodes.items; spare = vec_capacity p.nodes - vec_len p.nodes } };

    ghost invariant = { λ p. IsPool p.nodes.items };
}

impl Pool {
    /// The empty pool.
    pub fn new(alloc: Global) -> Pool
        ensures { result.nodes ≡ [] }
    {
        Pool {
            nodes: Vec::new(alloc),
        }
    }

    /// Makes room for so many more nodes. Memory where it was refused.
    pub fn reserve(&mut self, count: usize) -> Result<(), Memory>
        ensures nodes { self.new.nodes ≡ self.old.nodes }
        ensures room { OnOk result (count ≤ self.new.spare) }
        ensures spare { self.old.spare ≤ self.new.spare }
    {
        self.nodes.reserve(count)?;
        Ok(())
    }

    /// Puts a node at the end, and gives its number. Memory where it was refused, and the pool is as it was.
    pub fn push(&mut self, node: PlanNode) -> Result<PlanId, Memory>
        requires children { HasChildrenBelow (length self.old.nodes) node }
        ensures nodes { self.new.nodes ≡ (if is_ok result then self.old.nodes ++ node ∷ [] else self.old.nodes) }
        ensures number { IfOk result (λ id. id ≡ length self.old.nodes) }
        ensures full { OnErr result (self.old.spare ≡ 0) }
        ensures spare { self.old.spare ≤ self.new.spare + 1 }
    {
        let id = self.nodes.len();
        self.nodes.push(node)?;
        Ok(id)
    }

    /// A law: the children of each node have lesser numbers than it.
    pub fn has_children_before(&self)
        ensures { IsPool self.now.nodes }
    {
        let _nodes = &self.nodes;
    }

    /// The node of a number.
    pub fn node(&self, id: PlanId) -> PlanNode
        requires there { id < length self.now.nodes }
        ensures is { slice_get self.now.nodes id ≡ Some result }
        ensures children { HasChildrenBelow id result }
    {
        self.nodes[id]
    }
}
