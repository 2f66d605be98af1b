//! What CRTCs and planes show: a list with a framebuffer for each, 0 for a dark one.

ghost use Rattle.std.specs.Prelude.{◌≡◌, ◌≤◌, map, replicate, slice_get, length};
ghost use Rattle.drm_modes.specs.Modes.{dark_of, lit_rows};

use crate::rows::Shown;
use arrayvec::ArrayVec;

/// Returns a list of `count` dark ones.
pub(crate) fn dark(count: u32) -> ArrayVec<u32, 64>
    requires { count ≤ 64 }
    ensures { result.items ≡ replicate count 0 }
{
    let mut scanouts = ArrayVec::new();
    for _scanout in 0..count {
        scanouts.push(0);
    }
    scanouts
}

/// Makes each one dark that shows a framebuffer.
pub(crate) fn darken(scanouts: &mut [u32], framebuffer: u32)
    ensures { scanouts.new ≡ map (dark_of framebuffer) scanouts.old }
{
    for scanout in scanouts.iter_mut() {
        *scanout = without(*scanout, framebuffer);
    }
}

fn without(scanout: u32, framebuffer: u32) -> u32
    ensures { result ≡ dark_of framebuffer scanout }
{
    if scanout == framebuffer { 0 } else { scanout }
}

/// Returns the entry at a position among those that are not dark. The first of all has id 1.
pub(crate) fn nth_lit(scanouts: &[u32], position: usize) -> Option<Shown>
    requires { length scanouts.now ≤ 64 }
    ensures { result ≡ slice_get (lit_rows 1 scanouts.now) position }
{
    let mut engine = 1;
    let mut left = position;
    for scanout in scanouts {
        if *scanout != 0 {
            if left == 0 {
                return Some(Shown {
                    engine,
                    framebuffer: *scanout,
                });
            }
            left -= 1;
        }
        engine += 1;
    }
    None
}
