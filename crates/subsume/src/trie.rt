//! Lists of numbers, kept as paths in a tree, so that those within given limits are found without looking at the others.
ghost use Rattle.std.specs.Prelude.{◌≡◌, ◌↔◌, ◌<◌, ◌≤◌, ℕ, Some, [], IsTrue, length, slice_get, IfOk, OnOk, MatchOption, Contains};
ghost use Rattle.subsume.specs.Tries.{IsChildFor, Down, Grows, AreAtMost, sibling_in, ChildrenAreInChain, IsChildOrNone, HasReached};

use std::alloc::{AllocError, Global};
use std::marker::Model;

/// A node of the tree.
#[derive(Clone, Copy, Debug)]
pub(crate) struct Node {
    /// The place of the node above it.
    pub(crate) parent: u32,
    /// The number for which it stands there.
    pub(crate) count: u32,
    /// The place of the next node with this parent; 0 where there is none.
    pub(crate) sibling: u32,
}

/// A tree of nodes in a list. The root is at place 0, and as long as there is no list, there is no root.
///
/// Contracts see the nodes.
#[derive(Debug, Drop)]
pub(crate) struct Trie {
    nodes: Vec<Node>,
    /// The place of the first child of each node; 0 where it has none.
    firsts: Vec<u32>,
}

impl Model for Trie {
    ghost use Rattle.std.specs.Prelude.{List};
    ghost use Rattle.subsume.specs.declared.trie.Node.{Node};
    ghost use Rattle.subsume.specs.Links.{IsTrie};

    ghost Value = { List Node };

    ghost view = { λ t. t.nodes.items };

    ghost invariant = { IsTrie };
}

/// Whether the node is below this one for this count.
fn is_below(node: Node, parent: u32, count: u32) -> bool
    ensures { IsTrue result ↔ ((node.parent ≡ parent) × (node.count ≡ count)) }
{
    node.parent == parent && node.count == count
}

impl Trie {
    /// No list; it takes no memory.
    pub(crate) fn new(alloc: Global) -> Trie
        ensures { result ≡ [] }
    {
        Trie {
            nodes: Vec::new(alloc),
            firsts: Vec::new(alloc),
        }
    }

    /// The place of the node's first child, from which all its children follow; 0 where it has none.
    pub(crate) fn first(&self, n: u32) -> u32
        ensures linked { ChildrenAreInChain self.now n result }
        ensures ends { sibling_in self.now 0 ≡ 0 }
        ensures falls { (m : ℕ) → 0 < m → sibling_in self.now m < m }
        ensures apart { (k count l m : ℕ) → IsChildFor self.now k count l → IsChildFor self.now k count m → l ≡ m }
    {
        self.firsts.get(n as usize).copied().unwrap_or(0)
    }

    /// The node at this place; none past the end.
    pub(crate) fn node(&self, place: u32) -> Option<Node>
        ensures { result ≡ slice_get self.now place }
    {
        self.nodes.get(place as usize).copied()
    }

    /// The place of the node's child for this count; 0 where it has none.
    pub(crate) fn child(&self, n: u32, count: u32) -> u32
        ensures { IsChildOrNone self.now n count result }
    {
        let mut place = self.first(n);
        while place != 0 {
            match self.node(place) {
                None => return 0,
                Some(node) => {
                    if is_below(node, n, count) {
                        return place;
                    }
                    place = node.sibling;
                }
            }
        }
        0
    }

    /// Adds a child of the node, which has none for this count. Where there is no memory, or the nodes number 4,294,967,295,
    /// nothing changes.
    fn add(&mut self, n: u32, count: u32) -> Result<u32, AllocError>
        requires there { n < length self.old }
        requires none { (m : ℕ) → IsChildFor self.old n count m → ⊥ }
        ensures grown { Grows self.old self.new }
        ensures child { IfOk result (λ m. IsChildFor self.new n count m × (m < length self.new)) }
    {
        let place = self.nodes.len();
        if place > 4_294_967_294 {
            return Err(AllocError);
        }
        let sibling = self.firsts[n as usize];
        self.nodes.reserve(1)?;
        self.firsts.reserve(1)?;
        self.nodes.push_reserved(Node {
            parent: n,
            count,
            sibling,
        });
        self.firsts.push_reserved(0);
        self.firsts[n as usize] = place as u32;
        Ok(place as u32)
    }

    /// The place of the node's child for this count, which is made where there is none.
    pub(crate) fn child_made(&mut self, n: u32, count: u32) -> Result<u32, AllocError>
        requires { n < length self.old }
        ensures grown { Grows self.old self.new }
        ensures child { IfOk result (λ m. IsChildFor self.new n count m × (m < length self.new)) }
    {
        let place = self.child(n, count);
        if place != 0 {
            return Ok(place);
        }
        let made = self.add(n, count)?;
        Ok(made)
    }

    /// Makes the root, where there is none.
    fn start(&mut self) -> Result<(), AllocError>
        ensures grown { Grows self.old self.new }
        ensures there { OnOk result (0 < length self.new) }
    {
        if self.nodes.is_empty() {
            self.nodes.reserve(1)?;
            self.firsts.reserve(1)?;
            self.nodes.push_reserved(Node {
                parent: 0,
                count: 0,
                sibling: 0,
            });
            self.firsts.push_reserved(0);
        }
        Ok(())
    }

    /// The place to which the counts lead from the root, where nodes are made as far as there are none. Where there is no
    /// memory, some may have been made.
    pub(crate) fn made(&mut self, counts: &[u32]) -> Result<u32, AllocError>
        ensures grown { Grows self.old self.new }
        ensures down { IfOk result (λ l. Down self.new counts.now 0 l × (l < length self.new)) }
    {
        self.start()?;
        let mut n = 0;
        for count in counts {
            n = self.child_made(n, *count)?;
        }
        Ok(n)
    }

    /// The place to which the counts lead from the root, and no other one; none where they lead nowhere.
    pub(crate) fn leaf(&self, counts: &[u32]) -> Option<u32>
        ensures { MatchOption result
            ((l : ℕ) → Down self.now counts.now 0 l → ⊥)
            (λ n. (l : ℕ) → Down self.now counts.now 0 l ↔ (n ≡ l)) }
    {
        let mut n = 0;
        let _first = self.first(n);
        for count in counts {
            n = self.child(n, *count);
            if n == 0 {
                return None;
            }
        }
        Some(n)
    }

    /// Adds the places to which counts within these limits lead from the node at this place, if it is a child of n within
    /// the limit.
    #[cycle(reached)]
    fn add_below(
        &self,
        place: u32,
        node: Node,
        n: u32,
        limit: u32,
        rest: &[u32],
        out: &mut Vec<u32>,
    ) -> Result<(), AllocError>
        requires { slice_get self.now place ≡ Some node }
        ensures kept { OnOk result ((v : ℕ) → Contains out.old.items v → Contains out.new.items v) }
        ensures all { OnOk result ((f : ℕ) → f ≤ limit → IsChildFor self.now n f place
            → HasReached self.now place rest.now out.new.items) }
    {
        if node.parent != n {
            return Ok(());
        }
        if node.count > limit {
            return Ok(());
        }
        self.add_reached(place, rest, out)
    }

    /// Adds the places to which counts within these limits lead from the node. The only error is want of memory.
    #[cycle(reached)]
    pub(crate) fn add_reached(
        &self,
        n: u32,
        limits: &[u32],
        out: &mut Vec<u32>,
    ) -> Result<(), AllocError>
        ensures kept { OnOk result ((v : ℕ) → Contains out.old.items v → Contains out.new.items v) }
        ensures all { OnOk result (HasReached self.now n limits.now out.new.items) }
    {
        match limits {
            [] => {
                out.push(n)?;
                Ok(())
            }
            [limit, rest @ ..] => {
                let mut place = self.first(n);
                while place != 0 {
                    match self.node(place) {
                        None => return Ok(()),
                        Some(node) => {
                            self.add_below(place, node, n, *limit, rest, out)?;
                            place = node.sibling;
                        }
                    }
                }
                Ok(())
            }
        }
    }
}
