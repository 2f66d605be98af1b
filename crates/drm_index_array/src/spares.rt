//! Nodes that are kept for later entries.

ghost use Rattle.std.specs.Prelude.{◌≡◌, ◌≤◌, IfOk, IfSome};
ghost use Rattle.std.specs.FinMap as map;

use crate::tree::Node;
use std::alloc::{AllocError, Global};

/// The nodes that became empty last: one of the lowest level, and one of the levels above. They take the place of new
/// nodes. So an entry that is added and removed again and again does not allocate each time.
pub struct Spares<T> {
    lowest: Option<Box<Node<T>>>,
    above: Option<Box<Node<T>>>,
}

// Written out, so that it is proved once: a derived one is proved again wherever such a value is dropped.
impl<T: Drop> Drop for Spares<T> {
    fn drop(self) {
        let Spares { lowest, above } = self;
        drop(lowest);
        drop(above);
    }
}

impl<T: Drop> Spares<T> {
    /// Returns no nodes. Does not allocate.
    pub fn none() -> Self {
        Spares {
            lowest: None,
            above: None,
        }
    }

    /// Keeps a node, and drops the one that it replaces.
    pub fn keep(&mut self, node: Box<Node<T>>) {
        if node.height() == 0 {
            self.lowest = Some(node);
        } else {
            self.above = Some(node);
        }
    }

    /// Returns a node of this height with no entry. It is one that was kept, or else a new one.
    ///
    /// # Errors
    ///
    /// `AllocError` if a new node is needed and memory is refused.
    pub fn blank(&mut self, alloc: Global, height: u32) -> Result<Box<Node<T>>, AllocError>
        requires { height ≤ 5 }
        ensures { IfOk result (λ node. node.value ≡ record { height = height; items = map.empty }) }
    {
        if let Some(node) = self.take(height) {
            return Ok(node);
        }
        let node = Node::new(alloc, height)?;
        match Box::new(alloc, node) {
            Ok(node) => Ok(node),
            Err(_fault) => Err(AllocError),
        }
    }

    /// Returns the kept node of this height, if there is one.
    fn take(&mut self, height: u32) -> Option<Box<Node<T>>>
        ensures { IfSome result (λ node. node.value ≡ record { height = height; items = map.empty }) }
    {
        let kept = if height == 0 {
            self.lowest.take()
        } else {
            self.above.take()
        };
        let node = kept?;
        if node.height() != height || !node.is_empty() {
            return None;
        }
        Some(node)
    }
}
