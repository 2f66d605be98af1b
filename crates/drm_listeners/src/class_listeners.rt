//! Listeners whose class is a type.

ghost use Rattle.std.specs.Prelude.{◌≡◌};
ghost use Rattle.drm_sessions.specs.declared.class.Class.{Class as AClass};
ghost use Rattle.drm_sessions.specs.declared.class.Class.TheVariants.{Card, Render, Root};

use crate::listener::{Listener, Terms, Until};
use drm_sessions::Class;
use std::marker::PhantomData;
use std::os::unix::net::UnixListener;

/// A class of clients as a type, so that a listener of one class can't be used as one of another (own).
pub trait ListenerClass {
    /// The class.
    ghost of: { AClass };

    /// Returns the class.
    fn class() -> Class
        ensures { result ≡ of };
}

/// The class of `card` (own).
pub struct CardClass;

impl ListenerClass for CardClass {
    ghost of = { Card };

    fn class() -> Class {
        Class::Card
    }
}

/// The class of `render` (own).
pub struct RenderClass;

impl ListenerClass for RenderClass {
    ghost of = { Render };

    fn class() -> Class {
        Class::Render
    }
}

/// The class of `root` (own).
pub struct RootClass;

impl ListenerClass for RootClass {
    ghost of = { Root };

    fn class() -> Class {
        Class::Root
    }
}

/// A bound listener whose clients have the class `C` (own).
#[derive(Drop)]
pub struct ClassListener<C: ListenerClass> {
    socket: UnixListener,
    class: PhantomData<C>,
}

impl<C: ListenerClass> ClassListener<C> {
    /// Creates the listener of the class from a bound socket.
    pub fn new(socket: UnixListener) -> ClassListener<C> {
        ClassListener {
            socket,
            class: PhantomData,
        }
    }

    /// Returns the listener, which is to accept connections for this long.
    pub(crate) fn until(self, until: Until) -> Listener
        ensures class { result.terms.class ≡ C.of }
        ensures until { result.terms.until ≡ until }
        ensures unused { result.accepted ≡ 0 }
    {
        let class = C::class();
        Listener::new(self.socket, Terms { class, until })
    }
}

/// The three listeners of a server (own).
#[derive(Drop)]
pub struct Listeners {
    /// That of the socket `card`.
    pub card: ClassListener<CardClass>,
    /// That of the socket `render`.
    pub render: ClassListener<RenderClass>,
    /// That of the socket `root`.
    pub root: ClassListener<RootClass>,
}
