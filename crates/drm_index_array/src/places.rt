//! Where an index lies in a node.

ghost use Rattle.std.specs.Prelude.{◌≡◌, ◌*◌, ◌^◌, ◌<◌, ◌≤◌, ◌/◌, ◌%◌};
ghost use Rattle.drm_index_array.specs.Tree.{width, span};

/// Returns the slot of a node of this height where an index lies, and where it lies below that slot.
pub fn parts(height: u32, index: u64) -> (usize, u64)
    requires { height ≤ 5 }
    ensures slot { result.0 ≡ index / width height }
    ensures rest { result.1 ≡ index % width height }
{
    let shift = 6 * height;
    ((index >> shift) as usize, index & ((1 << shift) - 1))
}

/// Returns the slot of a node of this height where an index lies, whatever lies above the node.
pub fn place(height: u32, index: u64) -> usize
    requires { height ≤ 5 }
    ensures { result ≡ index % span height / width height }
{
    (index >> (6 * height) & 63) as usize
}

/// Returns the first index past those that a node of this height covers.
pub fn first_past(height: u32) -> u64
    requires { height ≤ 5 }
    ensures { result ≡ span height }
{
    1 << (6 * height + 6)
}

/// Returns the first index of a slot of a node of this height.
pub fn start(height: u32, at: usize) -> u64
    requires low { height ≤ 5 }
    requires slot { at < 64 }
    ensures value { result ≡ at * width height }
    ensures bound { result ≤ 63 * 2 ^ 30 }
    ensures width { width height ≤ 2 ^ 30 }
{
    (at as u64) << (6 * height)
}
