// Trees of linked nodes, their making and their walk.
ghost use Rattle.std.specs.Prelude.{◌≡◌, ℕ, ◌+◌, ◌<◌, ◌≤◌, IsTrue, List, slice_index, length, [], ◌∷◌, ◌++◌, IfOk, OnErr, OnOk, MatchOption, slice_get, slice_index_or, Some, vec_capacity, Err, ◌↔◌};
ghost use Rattle.tree_store.specs.Conforms.{Conforms, Fits};
ghost use Rattle.tree_store.specs.Folds.{Folds};
ghost use Rattle.tree_store.specs.Forest.{node_at, children_at, IsChild, IsForest, AreRoots, OnlyRoot, Under};
ghost use Rattle.tree_store.specs.Linking.{Linking};
ghost use Rattle.tree_store.specs.Orders.{Preorder, Postorder, IsNext};
ghost use Rattle.tree_store.specs.declared.tree.AddError.TheVariants as error;

use crate::visit::Visit;
use ast_types::Types;
use std::alloc::Global;
use std::marker::Model;
use value_store::{NoMemory, Value};

/// No node.
const NONE: u32 = 4_294_967_295;

/// How many nodes a tree may have.
const LIMIT: usize = 1_048_576;

/// Why a node isn't added.
#[derive(Clone, Copy, Debug, PartialEq, Eq)]
pub enum AddError {
    /// There are 1,048,576 nodes.
    TooLarge,
    /// Memory was wanting.
    NoMemory,
}

/// What a node is but for its links: its type, and which of all fields are its own.
#[derive(Clone, Copy)]
pub struct Label {
    pub ty: u32,
    pub start: u32,
    pub count: u32,
}

/// Trees of nodes, which are numbered from 0 in the order in which they were added, children before
/// their parent. Each node has the links to its parent, its first child and its next sibling, and
/// its number among the children of its parent.
#[derive(Drop)]
pub struct Tree {
    labels: Vec<Label>,
    parents: Vec<u32>,
    numbers: Vec<u32>,
    firsts: Vec<u32>,
    nexts: Vec<u32>,
    fields: Vec<Value>,
}

impl Model for Tree {
    ghost use Rattle.std.specs.Prelude.{List, map};
    ghost use Rattle.tree_store.specs.Forest.{Node};

    ghost Value = { List Node };

    ghost use Rattle.tree_store.specs.Links.{nodes_from, label_of, IsLinkedTree};

    ghost view = { λ t. nodes_from t.nexts.items (map (label_of t.fields.items) t.labels.items)
        t.firsts.items };

    ghost invariant = { λ t. IsLinkedTree t.labels.items t.fields.items
        t.parents.items t.numbers.items t.firsts.items t.nexts.items };
}

impl Tree {
    /// No nodes. It takes no memory.
    pub fn new(alloc: Global) -> Tree
        ensures { result ≡ [] }
    {
        Tree {
            labels: Vec::new(alloc),
            parents: Vec::new(alloc),
            numbers: Vec::new(alloc),
            firsts: Vec::new(alloc),
            nexts: Vec::new(alloc),
            fields: Vec::new(alloc),
        }
    }

    /// Makes one tree of these children, which are roots, under a new node, and gives its number.
    pub fn add(
        &mut self,
        types: &Types,
        ty: u32,
        children: &[u32],
        fields: &[Value],
    ) -> Result<u32, AddError>
        requires roots { AreRoots self.old children.now }
        requires fits { Fits types.now self.old ty children.now fields.now }
        requires few { (length children.now ≤ 8) × (length fields.now ≤ 8) }
        ensures number { IfOk result (λ n. n ≡ length self.old) }
        ensures added { OnOk result (self.new ≡ self.old ++
            record { ty = ty; children = children.now; fields = fields.now } ∷ []) }
        ensures conforms { Conforms types.now self.old → OnOk result (Conforms types.now self.new) }
        ensures err { OnErr result (self.new ≡ self.old) }
        ensures full { (result ≡ Err error.TooLarge) ↔ (length self.old ≡ 1048576) }
    {
        if self.labels.len() == LIMIT {
            return Err(AddError::TooLarge);
        }
        let room = make_room(
            &mut self.labels,
            &mut self.parents,
            &mut self.numbers,
            &mut self.firsts,
            &mut self.nexts,
            &mut self.fields,
            fields.len(),
        );
        if room.is_err() {
            return Err(AddError::NoMemory);
        }
        let node = self.labels.len() as u32;
        let label = Label {
            ty,
            start: self.fields.len() as u32,
            count: fields.len() as u32,
        };
        link(
            &mut self.parents,
            &mut self.numbers,
            &mut self.nexts,
            children,
            node,
        );
        push_fields(&mut self.fields, fields);
        self.labels.push(label).unwrap();
        self.parents.push(NONE).unwrap();
        self.numbers.push(0).unwrap();
        self.firsts.push(next_after(children, 0)).unwrap();
        self.nexts.push(NONE).unwrap();
        Ok(node)
    }

    /// How many nodes there are. Children have lower numbers than their parent.
    pub fn len(&self) -> u32
        ensures count { result ≡ length self.now }
        ensures few { result ≤ 1048576 }
        ensures forest { IsForest self.now }
    {
        self.labels.len() as u32
    }

    /// Whether there is no node.
    pub fn is_empty(&self) -> bool
        ensures { IsTrue result ↔ (length self.now ≡ 0) }
    {
        self.len() == 0
    }

    /// The type of the node.
    pub fn type_of(&self, node: u32) -> u32
        requires { node < length self.now }
        ensures { result ≡ (node_at self.now node).ty }
    {
        label_at(self.labels.as_slice(), node as usize).ty
    }

    /// The node that this one is a child of; none where it is a root.
    pub fn parent(&self, node: u32) -> Option<u32>
        requires { node < length self.now }
        ensures { MatchOption result ((p i : ℕ) → IsChild self.now p i node → ⊥)
            (λ p. (i : ℕ) × IsChild self.now p i node) }
    {
        let parent = link_at(self.parents.as_slice(), node as usize);
        if parent == NONE { None } else { Some(parent) }
    }

    /// The node's place among the children of its parent, which are numbered from 0.
    pub fn number(&self, node: u32) -> u32
        requires { node < length self.now }
        ensures { (p i : ℕ) → IsChild self.now p i node → result ≡ i }
    {
        link_at(self.numbers.as_slice(), node as usize)
    }

    /// The one node without a parent. It is the last one.
    pub fn root(&self) -> u32
        requires { (r : ℕ) × OnlyRoot self.now r }
        ensures only { OnlyRoot self.now result }
        ensures last { result + 1 ≡ length self.now }
    {
        self.len() - 1
    }

    /// A child of the node; children are numbered from 0. It goes over the siblings before it.
    pub fn child(&self, node: u32, i: u32) -> u32
        requires { i < length (children_at self.now node) }
        ensures is { IsChild self.now node i result }
        ensures before { result < node }
    {
        let firsts = self.firsts.as_slice();
        let mut at = link_at(firsts, node as usize);
        for turn in 0..i {
            let nexts = self.nexts.as_slice();
            at = link_at(nexts, at as usize);
        }
        at
    }

    /// A field of the node; fields are numbered from 0.
    pub fn field(&self, node: u32, i: u32) -> Value
        requires { i < length (node_at self.now node).fields }
        ensures { slice_get (node_at self.now node).fields i ≡ Some result }
    {
        let start = label_at(self.labels.as_slice(), node as usize).start;
        value_at(self.fields.as_slice(), start as usize + i as usize)
    }

    /// The node that stands behind this one in the preorder of the tree under `root`; none where
    /// this one is the last.
    pub fn next_in_preorder(&self, root: u32, node: u32) -> Option<u32>
        requires root { root < length self.now }
        requires under { Under self.now root node }
        ensures { (order : List ℕ)
            → Preorder self.now (root ∷ []) order → IsNext order node result }
    {
        let firsts = self.firsts.as_slice();
        let first = link_at(firsts, node as usize);
        if first != NONE {
            return Some(first);
        }
        let mut at = node;
        while at != root {
            let nexts = self.nexts.as_slice();
            let next = link_at(nexts, at as usize);
            if next != NONE {
                return Some(next);
            }
            let parents = self.parents.as_slice();
            at = link_at(parents, at as usize);
        }
        None
    }

    /// The node that stands behind this one in the postorder of the tree under `root`; none where
    /// this one is the last, which is `root`.
    pub fn next_in_postorder(&self, root: u32, node: u32) -> Option<u32>
        requires root { root < length self.now }
        requires under { Under self.now root node }
        ensures { (order : List ℕ)
            → Postorder self.now (root ∷ []) order → IsNext order node result }
    {
        let firsts = self.firsts.as_slice();
        let nexts = self.nexts.as_slice();
        let parents = self.parents.as_slice();
        if node == root {
            return None;
        }
        let next = link_at(nexts, node as usize);
        if next == NONE {
            let parent = link_at(parents, node as usize);
            return Some(parent);
        }
        let mut at = next;
        let mut first = link_at(firsts, at as usize);
        while first != NONE {
            at = first;
            let firsts = self.firsts.as_slice();
            first = link_at(firsts, at as usize);
        }
        Some(at)
    }

    /// Visits the nodes under `root`: each one is entered, then its children are visited in order,
    /// then it is left. Gives the node at which a call answered false; none where all answered true.
    pub fn walk<V: Visit>(&self, root: u32, visitor: &mut V) -> Option<u32>
        requires root { root < length self.now }
        requires ready { V.ready self.now visitor.old }
        ensures fold { Folds (V.enters self.now) (V.leaves self.now) self.now (root ∷ [])
            visitor.old visitor.new result }
        ensures ready { V.ready self.now visitor.new }
    {
        let mut node = root;
        let mut done = false;
        loop {
            if done {
                if !visitor.leave(self, node) {
                    return Some(node);
                }
                if node == root {
                    return None;
                }
                let next = self.nexts[node as usize];
                if next != NONE {
                    node = next;
                    done = false;
                } else {
                    node = self.parents[node as usize];
                }
            } else {
                if !visitor.enter(self, node) {
                    return Some(node);
                }
                let first = self.firsts[node as usize];
                if first != NONE {
                    node = first;
                } else {
                    done = true;
                }
            }
        }
    }
}

/// Finds room for a node with `n` fields.
fn make_room(
    labels: &mut Vec<Label>,
    parents: &mut Vec<u32>,
    numbers: &mut Vec<u32>,
    firsts: &mut Vec<u32>,
    nexts: &mut Vec<u32>,
    fields: &mut Vec<Value>,
    n: usize,
) -> Result<(), NoMemory>
    ensures labels { labels.new.items ≡ labels.old.items }
    ensures parents { parents.new.items ≡ parents.old.items }
    ensures numbers { numbers.new.items ≡ numbers.old.items }
    ensures firsts { firsts.new.items ≡ firsts.old.items }
    ensures nexts { nexts.new.items ≡ nexts.old.items }
    ensures fields { fields.new.items ≡ fields.old.items }
    ensures label_room { OnOk result (length labels.new.items < vec_capacity labels.new) }
    ensures parent_room { OnOk result (length parents.new.items < vec_capacity parents.new) }
    ensures number_room { OnOk result (length numbers.new.items < vec_capacity numbers.new) }
    ensures first_room { OnOk result (length firsts.new.items < vec_capacity firsts.new) }
    ensures next_room { OnOk result (length nexts.new.items < vec_capacity nexts.new) }
    ensures field_room { OnOk result (length fields.new.items + n ≤ vec_capacity fields.new) }
{
    labels.reserve(1)?;
    parents.reserve(1)?;
    numbers.reserve(1)?;
    firsts.reserve(1)?;
    nexts.reserve(1)?;
    fields.reserve(n)?;
    Ok(())
}

/// Links the children of a new node to it and to one another.
fn link(
    parents: &mut Vec<u32>,
    numbers: &mut Vec<u32>,
    nexts: &mut Vec<u32>,
    children: &[u32],
    node: u32,
)
    requires parents { (k c : ℕ)
        → slice_get children.now k ≡ Some c → c < length parents.old.items }
    requires numbers { (k c : ℕ)
        → slice_get children.now k ≡ Some c → c < length numbers.old.items }
    requires nexts { (k c : ℕ)
        → slice_get children.now k ≡ Some c → c < length nexts.old.items }
    requires few { length children.now ≤ 8 }
    requires differ { (j k c : ℕ)
        → slice_get children.now j ≡ Some c → slice_get children.now k ≡ Some c → j ≡ k }
    ensures parents { Linking children.now (length children.now) parents.old.items parents.new.items
        (λ k. node) }
    ensures numbers { Linking children.now (length children.now) numbers.old.items numbers.new.items
        (λ k. k) }
    ensures nexts { Linking children.now (length children.now) nexts.old.items nexts.new.items
        (λ k. slice_index_or children.now (k + 1) 4294967295) }
    ensures parent_room { vec_capacity parents.new ≡ vec_capacity parents.old }
    ensures number_room { vec_capacity numbers.new ≡ vec_capacity numbers.old }
    ensures next_room { vec_capacity nexts.new ≡ vec_capacity nexts.old }
{
    for i in 0..children.len() {
        let c = children[i] as usize;
        parents[c] = node;
        numbers[c] = i as u32;
        nexts[c] = next_after(children, i + 1);
    }
}

/// Adds the fields of a node, for which there is room.
fn push_fields(all: &mut Vec<Value>, fields: &[Value])
    requires { length all.old.items + length fields.now ≤ vec_capacity all.old }
    ensures { all.new.items ≡ all.old.items ++ fields.now }
{
    for field in fields {
        all.push(*field).unwrap();
    }
}

/// The child at a place; `NONE` where there is none.
fn next_after(children: &[u32], i: usize) -> u32
    ensures { result ≡ slice_index_or children.now i 4294967295 }
{
    if i < children.len() {
        children[i]
    } else {
        NONE
    }
}

/// The link of a node that there is.
fn link_at(links: &[u32], node: usize) -> u32
    requires { node < length links.now }
    ensures { result ≡ slice_index links.now node }
{
    links[node]
}

/// The label of a node that there is.
fn label_at(labels: &[Label], node: usize) -> Label
    requires { node < length labels.now }
    ensures { slice_get labels.now node ≡ Some result }
{
    labels[node]
}

/// The field at a place that there is.
fn value_at(fields: &[Value], i: usize) -> Value
    requires { i < length fields.now }
    ensures { slice_get fields.now i ≡ Some result }
{
    fields[i]
}
