//! The shapes of buffers and framebuffers.

ghost use Rattle.std.specs.Prelude.{◌≡◌, ◌≤◌};
ghost use Rattle.drm_model.specs.Buffers as model;

/// Returns whether pixels may have this shape: 1 to 65,535 in a row, as many rows, and 1 to 64 bits a pixel (own).
pub fn is_dumb_shape(width: u32, height: u32, bpp: u32) -> bool
    ensures { result ≡ model.is_dumb_shape width height bpp }
{
    1 <= width && width <= 65535 && 1 <= height && height <= 65535 && 1 <= bpp && bpp <= 64
}

/// Returns the bytes that a pixel of this many bits takes.
pub fn bytes_per_pixel(bpp: u32) -> u32
    requires { bpp ≤ 64 }
    ensures value { result ≡ model.bytes_per_pixel bpp }
    ensures small { result ≤ 8 }
{
    (bpp + 7) / 8
}
