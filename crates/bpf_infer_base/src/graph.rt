//! Graphs of labels, their strongly connected components, and longest paths, by Bellman and Ford (Bellman, On a routing
//! problem, 1958).

use crate::component_search::ComponentSearch;
use crate::lists::{get_or, put};
use std::alloc::{AllocError, Global};

/// An edge between two nodes, with the number of the path that it stands for.
#[derive(Clone, Copy)]
pub struct Arc {
    pub from: usize,
    pub to: usize,
    pub path: usize,
}

impl Arc {
    /// An edge that stands for itself.
    pub fn of(from: usize, to: usize) -> Arc {
        Arc::numbered(from, to, 0)
    }

    /// An edge that stands for the path with a number.
    pub fn numbered(from: usize, to: usize, path: usize) -> Arc {
        Arc { from, to, path }
    }
}

/// The number at an index of a list, 0 past its end.
pub fn number_in(list: &[usize], index: usize) -> usize {
    get_or(list, index, 0)
}

/// Nodes from 0 on, and the arcs between them.
#[derive(Drop)]
pub struct Graph {
    count: usize,
    /// By the nodes that they leave.
    arcs: Vec<Arc>,
    /// By nodes, the number of the first arc that leaves this one or a later one; and that of all arcs.
    starts: Vec<usize>,
}

/// Where the arcs of each node start, and how many there are.
fn starts_of(alloc: Global, count: usize, arcs: &[Arc]) -> Result<Vec<usize>, AllocError> {
    let mut starts = Vec::with_capacity(alloc, count.saturating_add(1))?;
    for (number, arc) in arcs.iter().enumerate() {
        starts.resize(arc.from.saturating_add(1), number)?;
    }
    starts.resize(count.saturating_add(1), arcs.len())?;
    Ok(starts)
}

/// Arcs that lead the other way.
fn turned(alloc: Global, arcs: &[Arc]) -> Result<Vec<Arc>, AllocError> {
    let turn = |arc: &Arc| Arc::numbered(arc.to, arc.from, arc.path);
    arcs.iter().map(turn).collect(alloc)
}

impl Graph {
    /// A graph of so many nodes, with arcs that rise by the nodes that they leave.
    pub fn of(alloc: Global, count: usize, arcs: Vec<Arc>) -> Result<Graph, AllocError> {
        let starts = starts_of(alloc, count, &arcs)?;
        Ok(Graph {
            count,
            arcs,
            starts,
        })
    }

    /// How many nodes there are.
    pub fn count(&self) -> usize {
        self.count
    }

    /// The arcs, by the nodes that they leave.
    pub fn arcs(&self) -> &[Arc] {
        &self.arcs
    }

    /// The number of the first arc that leaves a node or a later one.
    pub fn start(&self, node: usize) -> usize {
        number_in(&self.starts, node)
    }

    /// The number of the first arc that leaves a later node.
    pub fn end(&self, node: usize) -> usize {
        number_in(&self.starts, node.saturating_add(1))
    }

    /// The node that the arc with a number leads to.
    pub fn target(&self, number: usize) -> usize {
        self.arcs.get(number).map_or(0, |arc| arc.to)
    }

    /// Whether an arc leads from a node to itself.
    pub fn has_own_arc(&self, node: usize) -> bool {
        (self.start(node)..self.end(node)).any(|number| self.target(number) == node)
    }

    /// The same nodes with each arc turned round.
    pub fn reversed(&self, alloc: Global) -> Result<Graph, AllocError> {
        let mut arcs = turned(alloc, &self.arcs)?;
        arcs.sort_by_key(|arc| arc.from)?;
        Graph::of(alloc, self.count, arcs)
    }

    /// Which nodes a node leads to, itself where it lies on a cycle, on paths that meet no barred node. A barred node counts
    /// as one of them.
    pub fn reached(
        &self,
        alloc: Global,
        node: usize,
        barred: Option<usize>,
    ) -> Result<Vec<bool>, AllocError> {
        let mut growth = Growth::new(alloc, self)?;
        if let Some(barred) = barred {
            put(&mut growth.is_met, barred, true);
        }
        growth.grow(node)?;
        growth.grow_all()?;
        Ok(growth.is_met)
    }

    /// Whether a node leads to another one, on paths that meet no barred node.
    pub fn leads(
        &self,
        alloc: Global,
        from: usize,
        to: usize,
        barred: Option<usize>,
    ) -> Result<bool, AllocError> {
        Ok(get_or(&self.reached(alloc, from, barred)?, to, false))
    }

    /// Arcs that lead from all nodes with a path to node 0 towards it: each leads to node 0 or to where one before it leaves.
    pub fn tree_to_first(&self, alloc: Global) -> Result<Vec<Arc>, AllocError> {
        let reversed = self.reversed(alloc)?;
        let mut growth = Growth::new(alloc, &reversed)?;
        growth.meet(0)?;
        growth.grow_all()?;
        turned(alloc, &growth.tree)
    }
}

/// A search for the nodes that a first one leads to.
#[derive(Drop)]
struct Growth<'a> {
    graph: &'a Graph,
    is_met: Vec<bool>,
    nodes: Vec<usize>,
    tree: Vec<Arc>,
}

impl<'a> Growth<'a> {
    /// No node is met yet.
    fn new(alloc: Global, graph: &'a Graph) -> Result<Growth<'a>, AllocError> {
        Ok(Growth {
            graph,
            is_met: vec![in alloc; false; graph.count]?,
            nodes: Vec::new(alloc),
            tree: Vec::new(alloc),
        })
    }

    /// Grows from the nodes that are met, one after the other.
    fn grow_all(&mut self) -> Result<(), AllocError> {
        for index in 0..self.graph.count {
            let Some(node) = self.nodes.get(index).copied() else {
                break;
            };
            self.grow(node)?;
        }
        Ok(())
    }

    /// Takes note of a node that is met for the first time.
    fn meet(&mut self, node: usize) -> Result<(), AllocError> {
        put(&mut self.is_met, node, true);
        self.nodes.push(node)?;
        Ok(())
    }

    /// Meets the nodes that arcs from a node lead to.
    fn grow(&mut self, node: usize) -> Result<(), AllocError> {
        for number in self.graph.start(node)..self.graph.end(node) {
            if let Some(arc) = self.graph.arcs.get(number).copied() {
                if !get_or(&self.is_met, arc.to, true) {
                    self.meet(arc.to)?;
                    self.tree.push(arc)?;
                }
            }
        }
        Ok(())
    }
}

// ---- components

/// The strongly connected components of a graph, numbered so that arcs lead within one or to a lower one.
#[derive(Drop)]
pub struct Components {
    /// The number of each node's component.
    numbers: Vec<usize>,
    count: usize,
}

impl Components {
    /// The components of a graph.
    pub fn of(alloc: Global, graph: &Graph) -> Result<Components, AllocError> {
        let mut components = Components {
            numbers: vec![in alloc; 0; graph.count]?,
            count: 0,
        };
        let mut search = ComponentSearch::new(alloc, graph)?;
        for node in 0..graph.count {
            search.begin(node)?;
            components.add_from(&mut search)?;
        }
        Ok(components)
    }

    /// Adds the components that a search comes to.
    fn add_from(&mut self, search: &mut ComponentSearch) -> Result<(), AllocError> {
        for _ in 0..self.numbers.len() {
            if !search.find()? {
                break;
            }
            for node in search.found() {
                put(&mut self.numbers, *node, self.count);
            }
            self.count = self.count.saturating_add(1);
        }
        Ok(())
    }

    /// How many there are.
    pub fn count(&self) -> usize {
        self.count
    }

    /// The number of a node's component.
    pub fn of_node(&self, node: usize) -> usize {
        number_in(&self.numbers, node)
    }

    /// Whether both ends of an arc lie in one.
    pub fn contains(&self, arc: &Arc) -> bool {
        self.of_node(arc.from) == self.of_node(arc.to)
    }

    /// For each component whether a cycle lies in it.
    pub fn cyclic(&self, alloc: Global, graph: &Graph) -> Result<Vec<bool>, AllocError> {
        let mut cyclic = vec![in alloc; false; self.count]?;
        for arc in graph.arcs() {
            if self.contains(arc) {
                put(&mut cyclic, self.of_node(arc.from), true);
            }
        }
        Ok(cyclic)
    }

    /// The nodes by the numbers of their components, and in each the highest first.
    pub fn nodes(&self, alloc: Global) -> Result<Vec<usize>, AllocError> {
        let mut nodes: Vec<usize> = (0..self.numbers.len()).rev().collect(alloc)?;
        nodes.sort_by_key(|node| self.of_node(*node))?;
        Ok(nodes)
    }
}

/// How many nodes lie in components with cycles.
pub fn nodes_on_cycles(alloc: Global, graph: &Graph) -> Result<usize, AllocError> {
    let components = Components::of(alloc, graph)?;
    let cyclic = components.cyclic(alloc, graph)?;
    let is_on_cycle = |node: &usize| get_or(&cyclic, components.of_node(*node), false);
    Ok((0..graph.count()).filter(is_on_cycle).count())
}

// ---- longest paths

/// Raises what stands at the nodes to what the arcs from them give: their lengths and what stands at their ends. Whether
/// anything rose.
fn raise(graph: &Graph, lengths: &[i128], heights: &mut Vec<i128>) -> bool {
    let mut has_risen = false;
    for (arc, length) in graph.arcs.iter().zip(lengths).rev() {
        let height = get_or(heights, arc.to, 0).saturating_add(*length);
        if height > get_or(heights, arc.from, i128::MAX) {
            put(heights, arc.from, height);
            has_risen = true;
        }
    }
    has_risen
}

/// The length of the longest path from each node, with the heights at which paths may end, by the lengths of the arcs; None
/// if that isn't found in so many passes, as where a cycle has a length above 0.
pub fn longest_paths(
    graph: &Graph,
    lengths: &[i128],
    mut heights: Vec<i128>,
    passes: usize,
) -> Option<Vec<i128>> {
    for _ in 0..passes {
        if !raise(graph, lengths, &mut heights) {
            return Some(heights);
        }
    }
    None
}
