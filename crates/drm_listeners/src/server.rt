//! What the threads of all connections share.

ghost use Rattle.std.specs.Prelude.{◌≡◌};

use drm_connections::OpenConnections;
use drm_turns::{SharedDevice, Sharing};

/// A shared device and the open connections, as a type parameter of what starts threads (see `Sharing`).
pub(crate) trait Serving: Sharing {
    /// Returns the connections.
    fn open(&self) -> &OpenConnections;
}

/// A shared device, and the connections through which it is called.
#[derive(Drop)]
pub(crate) struct Server<'a> {
    pub(crate) device: &'a SharedDevice,
    pub(crate) open: &'a OpenConnections,
}

impl Sharing for Server<'_> {
    ghost table = { λ server. server.device.now };

    fn device(&self) -> &SharedDevice {
        self.device
    }
}

impl Serving for Server<'_> {
    fn open(&self) -> &OpenConnections {
        self.open
    }
}
