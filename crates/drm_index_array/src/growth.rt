//! How a tree grows and shrinks.

ghost use Rattle.std.specs.Prelude.{◌≡◌, ℕ, ◌+◌, ◌-◌, ◌*◌, ◌^◌, ◌<◌, ◌≤◌, ◌↔◌, IsSome, Option, Some, None, OnOk, OnErr, IfOk, IfErr, IfSome, IfNone, true, false};
ghost use Rattle.std.specs.FinMap as map;
ghost use Rattle.drm_index_array.specs.Marked.{get, unmarked};
ghost use Rattle.drm_index_array.specs.InsertFault.{value_of, IsTaken};
ghost use Rattle.drm_index_array.specs.Tree.{width, span};
ghost use Rattle.drm_index_array.specs.Root.{items_of, IsPast};

use crate::faults::InsertFault;
use crate::spares::Spares;
use crate::tree::Node;
use std::alloc::Global;

/// Returns the lowest height of a node that covers the index.
fn height_for(index: u64) -> u32
    requires { index < 2 ^ 36 }
    ensures low { result ≤ 5 }
    ensures within { index < span result }
    ensures least { 0 < result → width result ≤ index }
{
    if index < 1 << 6 {
        return 0;
    }
    if index < 1 << 12 {
        return 1;
    }
    if index < 1 << 18 {
        return 2;
    }
    if index < 1 << 24 {
        return 3;
    }
    if index < 1 << 30 {
        return 4;
    }
    5
}

/// Returns the lowest tree with this one entry. If memory is refused, it returns the value.
fn sole<T: Drop>(
    alloc: Global,
    spares: &mut Spares<T>,
    index: u64,
    value: T,
) -> Result<Box<Node<T>>, T>
    requires { index < 2 ^ 36 }
    ensures height { IfOk result (λ root. root.value.height ≤ 5) }
    ensures within { IfOk result (λ root. index < span root.value.height) }
    ensures least { IfOk result (λ root. 0 < root.value.height → width root.value.height ≤ index) }
    ensures items { IfOk result (λ root. root.value.items ≡ map.insert map.empty index (unmarked value)) }
    ensures returned { IfErr result (λ v. v ≡ value) }
{
    let Ok(mut root) = spares.blank(alloc, height_for(index)) else {
        return Err(value);
    };
    if let Err(fault) = root.insert(alloc, spares, index, value) {
        return Err(fault.into_value());
    }
    Ok(root)
}

/// Returns a tree of this height with the same entries. All its nodes are created before the first is linked. If memory
/// is refused, it returns the unchanged tree.
fn raised<T: Drop>(
    alloc: Global,
    root: Box<Node<T>>,
    height: u32,
) -> Result<Box<Node<T>>, Box<Node<T>>>
    requires low { height ≤ 5 }
    requires high { root.value.height ≤ height }
    requires past { IsPast root.value (span root.value.height) }
    requires used { 0 < map.len root.value.items }
    ensures height { IfOk result (λ node. node.value.height ≡ height) }
    ensures items { IfOk result (λ node. node.value.items ≡ root.value.items) }
    ensures err { IfErr result (λ node. node ≡ root) }
{
    if root.height() == height {
        return Ok(root);
    }
    let Ok(above) = Node::new(alloc, height) else {
        return Err(root);
    };
    let Ok(mut above) = Box::new(alloc, above) else {
        return Err(root);
    };
    let child = raised(alloc, root, height - 1)?;
    above.hang(child);
    Ok(above)
}

/// Returns a tree with one more entry, at an index that the root does not cover. If memory is refused, it returns the
/// unchanged tree and the value.
fn grown<T: Drop>(
    alloc: Global,
    spares: &mut Spares<T>,
    root: Box<Node<T>>,
    index: u64,
    value: T,
) -> Result<Box<Node<T>>, (Box<Node<T>>, T)>
    requires index { index < 2 ^ 36 }
    requires beyond { span root.value.height ≤ index }
    requires past { IsPast root.value (span root.value.height) }
    requires used { 0 < map.len root.value.items }
    ensures items { IfOk result (λ node. node.value.items ≡ map.insert root.value.items index (unmarked value)) }
    ensures kept { IfErr result (λ failed. failed.0 ≡ root) }
    ensures returned { IfErr result (λ failed. failed.1 ≡ value) }
{
    let mut top = match sole(alloc, spares, index, value) {
        Ok(top) => top,
        Err(value) => return Err((root, value)),
    };
    match raised(alloc, root, top.height() - 1) {
        Ok(child) => {
            top.hang(child);
            Ok(top)
        }
        Err(root) => match top.remove(spares, index) {
            Some(value) => Err((root, value)),
            None => unreachable!(),
        },
    }
}

/// Returns whether there is a tree, and it covers the index.
fn covers<T>(root: &Option<Box<Node<T>>>, index: u64) -> bool
    ensures within { result ≡ true → IsSome root.now × IfSome root.now (λ node. index < span node.value.height) }
    ensures beyond { result ≡ false → IfSome root.now (λ node. (span node.value.height ≤ index) × IsPast node.value (span node.value.height)) }
    ensures absent { result ≡ false → map.get (items_of root.now) index ≡ None }
    ensures few { map.len (items_of root.now) ≤ 2 ^ 36 }
{
    match root {
        Some(root) => root.covers(index),
        None => false,
    }
}

/// Returns the tree with one more entry, with no mark, at an index that it does not cover, and the result. If memory is
/// refused, the tree is unchanged, and the result has the value.
fn widened<T: Drop>(
    alloc: Global,
    spares: &mut Spares<T>,
    root: Option<Box<Node<T>>>,
    index: u64,
    value: T,
) -> (Option<Box<Node<T>>>, Result<(), T>)
    requires index { index < 2 ^ 36 }
    requires beyond { IfSome root (λ node. (span node.value.height ≤ index) × IsPast node.value (span node.value.height)) }
    ensures ok { OnOk result.1 (items_of result.0 ≡ map.insert (items_of root) index (unmarked value)) }
    ensures err { OnErr result.1 (result.0 ≡ root) }
    ensures returned { IfErr result.1 (λ v. v ≡ value) }
{
    let Some(root) = root else {
        return match sole(alloc, spares, index, value) {
            Ok(root) => (Some(root), Ok(())),
            Err(value) => (None, Err(value)),
        };
    };
    if root.is_empty() {
        return match sole(alloc, spares, index, value) {
            Ok(root) => (Some(root), Ok(())),
            Err(value) => (Some(root), Err(value)),
        };
    }
    match grown(alloc, spares, root, index, value) {
        Ok(root) => (Some(root), Ok(())),
        Err((root, value)) => (Some(root), Err(value)),
    }
}

/// Adds an entry with no mark to a tree. If the index has an entry or memory is refused, the tree is unchanged, and the
/// error has the value.
pub fn insert_below<T: Drop>(
    root: &mut Option<Box<Node<T>>>,
    alloc: Global,
    spares: &mut Spares<T>,
    index: u64,
    value: T,
) -> Result<(), InsertFault<T>>
    requires index { index < 2 ^ 36 }
    ensures ok { OnOk result (items_of root.new ≡ map.insert (items_of root.old) index (unmarked value)) }
    ensures err { OnErr result (root.new ≡ root.old) }
    ensures returned { IfErr result (λ fault. value_of fault ≡ value) }
    ensures absent { OnOk result (map.get (items_of root.old) index ≡ None) }
    ensures taken { IfErr result (λ fault. IsTaken fault ↔ IsSome (map.get (items_of root.old) index)) }
    ensures few { map.len (items_of root.old) ≤ 2 ^ 36 }
{
    if !covers(root, index) {
        let (tree, done) = widened(alloc, spares, root.take(), index, value);
        *root = tree;
        return match done {
            Ok(()) => Ok(()),
            Err(value) => Err(InsertFault::NoMemory(value)),
        };
    }
    match root {
        Some(root) => match root.insert(alloc, spares, index, value) {
            Ok(_is_full) => Ok(()),
            Err(fault) => Err(fault),
        },
        None => unreachable!(),
    }
}

/// Removes the entry at the index from a tree, and returns its value. Does not allocate. The root stays even if it is
/// empty then.
pub fn remove_below<T: Drop>(
    root: &mut Option<Box<Node<T>>>,
    spares: &mut Spares<T>,
    index: u64,
) -> Option<T>
    ensures items { items_of root.new ≡ map.remove (items_of root.old) index }
    ensures value { result ≡ get (items_of root.old) index }
    ensures kept { IfNone result (map.remove (items_of root.old) index ≡ items_of root.old) }
{
    if !covers(root, index) {
        return None;
    }
    match root {
        Some(root) => root.remove(spares, index),
        None => None,
    }
}
