//! The sockets that the program binds.

ghost use Rattle.std.specs.Prelude.{◌≡◌, IfErr};
ghost use Rattle.drm_commands.specs.declared.faults.Fault.TheVariants.{Listen};

use drm_commands::Fault;
use drm_listeners::{CardClass, ClassListener, ListenerClass, Listeners, RenderClass, RootClass};
use drm_sessions::Class;
use drm_traffic::PROGRAM;
use log::{Log, error};
use std::io::ErrorKind;
use std::net::Net;
use std::os::unix::fs::MetadataExt;
use std::os::unix::net::UnixListener;
use std::rt::Files;
use std::time::SystemTime;
use std::{fs, io};

/// The paths of the three sockets.
#[derive(Clone, Copy)]
pub(crate) struct Paths<'a> {
    pub(crate) card: &'a str,
    pub(crate) render: &'a str,
    pub(crate) root: &'a str,
}

impl<'a> Paths<'a> {
    /// Returns the path of the socket of a class.
    fn of(self, class: Class) -> &'a str {
        match class {
            Class::Card => self.card,
            Class::Render => self.render,
            Class::Root => self.root,
        }
    }
}

/// The identity of the file at a path. If the file system stores the time of creation, a reused number is that of
/// another file.
#[derive(Clone, Copy, PartialEq)]
struct FileId {
    device: u64,
    inode: u64,
    created: Option<SystemTime>,
}

fn file_at<R: Files>(rt: &R, path: &str) -> Option<FileId> {
    let metadata = fs::symlink_metadata(rt, path).ok()?;
    Some(FileId {
        device: metadata.dev(),
        inode: metadata.ino(),
        created: metadata.created().ok(),
    })
}

/// How many sockets the program binds.
const SOCKETS: usize = 4;

/// The file of a bound socket.
#[derive(Clone, Copy)]
struct SocketFile<'a> {
    path: &'a str,
    id: FileId,
}

/// The files of the bound sockets card, render, root and control. On drop each is removed, if it is still the one that was
/// bound.
pub(crate) struct SocketFiles<'a, R: Files> {
    rt: &'a R,
    files: [Option<SocketFile<'a>>; SOCKETS],
}

impl<R: Files> Drop for SocketFiles<'_, R> {
    fn drop(self) {
        let Self { rt, files } = self;
        for file in files {
            if let Some(SocketFile { path, id }) = file {
                if file_at(rt, path) == Some(id) {
                    let _ = fs::remove_file(rt, path);
                }
            }
        }
    }
}

/// The most bytes of a socket's path.
const MOST_BYTES: usize = 107;

/// Logs the reason a socket can't be bound.
fn tell<R: Log>(rt: &R, path: &str, reason: &io::Error) {
    let len = path.len();
    if reason.kind() == ErrorKind::AddrInUse {
        error!(rt; target: PROGRAM, "{path}: a file exists already: remove it if no server uses it");
    } else if reason.kind() == ErrorKind::InvalidInput && len > MOST_BYTES {
        error!(rt; target: PROGRAM, "{path}: the path of a socket has at most {MOST_BYTES} bytes, and this one has {len}");
    } else {
        error!(rt; target: PROGRAM, "{path}: {reason}");
    }
}

impl<'a, R: Files + Net + Log> SocketFiles<'a, R> {
    /// Creates the list of no socket.
    pub(crate) fn new(rt: &'a R) -> SocketFiles<'a, R> {
        let files = [None; SOCKETS];
        SocketFiles { rt, files }
    }

    /// Binds a socket at a path without a file, and keeps its file at this place. If that fails, an existing file is
    /// unchanged, and the cause is logged.
    fn bind(&mut self, place: usize, path: &'a str) -> Option<UnixListener> {
        match UnixListener::bind(self.rt, path) {
            Ok(listener) => {
                if let Some(id) = file_at(self.rt, path) {
                    if let Some(file) = self.files.get_mut(place) {
                        *file = Some(SocketFile { path, id });
                    }
                }
                Some(listener)
            }
            Err(reason) => {
                tell(self.rt, path, &reason);
                None
            }
        }
    }

    /// Binds the socket of control, if there is to be one.
    pub(crate) fn bind_control(
        &mut self,
        path: Option<&'a str>,
    ) -> Result<Option<UnixListener>, Fault> {
        let Some(path) = path else {
            return Ok(None);
        };
        match self.bind(3, path) {
            Some(listener) => Ok(Some(listener)),
            None => Err(Fault::Control),
        }
    }

    /// Binds the socket of class `C` at its path.
    fn bind_class<C: ListenerClass>(
        &mut self,
        place: usize,
        paths: Paths<'a>,
    ) -> Result<ClassListener<C>, Fault>
        ensures { IfErr result (λ fault. fault ≡ Listen C.of) }
    {
        let class = C::class();
        match self.bind(place, paths.of(class)) {
            Some(listener) => Ok(ClassListener::new(listener)),
            None => Err(Fault::Listen(class)),
        }
    }

    /// Binds the sockets in the order card, render, root. If one can't be bound, those before it are closed.
    pub(crate) fn bind_all(&mut self, paths: Paths<'a>) -> Result<Listeners, Fault>
        ensures { IfErr result (λ fault. (class : Class) × (fault ≡ Listen class)) }
    {
        let card = self.bind_class::<CardClass>(0, paths)?;
        let render = self.bind_class::<RenderClass>(1, paths)?;
        let root = self.bind_class::<RootClass>(2, paths)?;
        Ok(Listeners { card, render, root })
    }
}
