//! The objects that exist.

ghost use Rattle.std.specs.Prelude.{◌≡◌, ◌<◌, ◌≤◌, ◌↔◌, ◌==◌, true, false, None, Some, [], length, slice_get, nat_le, nat_lt, OnOk, OnErr, IfOk, IfErr, OnSome, IfNone};
ghost use Rattle.std.specs.Option.{option_map};
ghost use Rattle.drm_index_array.specs.Orders.{InOrder};
ghost use Rattle.drm_gem.specs.declared.object.Object as gem;
ghost use Rattle.drm_gem.specs.declared.objects.CreateFault.TheVariants as fault;
ghost use Rattle.drm_gem.specs.Objects.{IsUnusedBirth, with_object, changed_at, without_key, object_at, is_there, passes, held, unheld, referred, unreferred, stamped, dead_after, nth_row};

use crate::keys::ObjectKey;
use crate::object::{Dead, Object};
use drm_index_array::{IndexArray, InsertFault};
use slab::Slab;
use std::alloc::Global;
use std::marker::Model;

/// The number of an audit's rows of objects (own).
const OBJECT_KIND: u32 = 3;

/// The reason an object was not created. The objects are unchanged.
///
/// # Examples
///
/// ```rust
/// use drm_gem::{CreateFault, Objects};
///
/// let alloc = rt.alloc();
/// let mut full = Objects::new(alloc, 0);
/// assert!(rt; full.create(1, 4096) == Err(CreateFault::Full));
/// ```
#[derive(Clone, Copy, PartialEq, Debug)]
pub enum CreateFault {
    /// The limit of objects is reached.
    Full,
    /// Memory was refused.
    NoMemory,
}

/// The objects that exist, in the order in which they were created. Contracts see a flat list.
///
/// # Examples
///
/// ```rust
/// use drm_gem::Objects;
///
/// let alloc = rt.alloc();
/// let mut objects = Objects::new(alloc, 2);
/// let Ok(key) = objects.create(1, 4096) else { return };
/// ```
pub struct Objects {
    // the keys, by the step numbers of their objects
    keys: IndexArray<u32>,
    kept: Slab<Object>,
    limit: u32,
}

// Written out, so that it is proved once: a derived one is proved again in each crate that drops such a value.
impl Drop for Objects {
    fn drop(self) {
        let Objects {
            keys,
            kept,
            limit: _,
        } = self;
        drop(keys);
        drop(kept);
    }
}

impl Model for Objects {
    ghost use Rattle.drm_gem.specs.Objects.{ObjectSet};

    ghost Value = { ObjectSet };

    ghost use Rattle.drm_gem.specs.Fields.{objects_of, IsSound};

    ghost view = { objects_of };

    ghost invariant = { IsSound };
}

impl Objects {
    /// Creates a table without objects. At most `limit` may exist at once. Does not allocate.
    pub fn new(alloc: Global, limit: u32) -> Objects
        ensures { result ≡ record { limit = limit; objects = [] } }
    {
        Objects {
            keys: IndexArray::new(alloc),
            kept: Slab::new(alloc),
            limit,
        }
    }

    /// Creates an object of `size` bytes with stamp 0 and one handle (drm-mm). `birth` is the number of the step, which
    /// no existing object may have.
    ///
    /// # Errors
    ///
    /// `Full` if the limit is reached (own), `NoMemory` if memory is refused. The objects are then unchanged.
    pub fn create(&mut self, birth: u32, size: u64) -> Result<ObjectKey, CreateFault>
        requires unused { IsUnusedBirth self.old birth }
        ensures room { OnOk result (length self.old.objects < self.old.limit) }
        ensures full { IfErr result (λ why. (why ≡ fault.Full) ↔ (self.old.limit ≤ length self.old.objects)) }
        ensures fresh { IfOk result (λ key. object_at self.old key ≡ None) }
        ensures ok { IfOk result (λ key. self.new ≡ with_object self.old key birth size) }
        ensures err { OnErr result (self.new ≡ self.old) }
    {
        if self.keys.len() >= self.limit as usize {
            return Err(CreateFault::Full);
        }
        // A slab returns low keys, but its contract does not say so. Keys of 32 bits are exhausted long after the
        // memory.
        let number = self.kept.vacant_key();
        if number > u32::MAX as usize {
            return Err(CreateFault::NoMemory);
        }
        if let Err(_fault) = self.kept.reserve(1) {
            return Err(CreateFault::NoMemory);
        }
        match self.keys.insert(birth, number as u32) {
            Ok(()) => {}
            Err(InsertFault::NoMemory(_)) => return Err(CreateFault::NoMemory),
            Err(InsertFault::Taken(_)) => unreachable!(),
        }
        let key = ObjectKey::from_number(number as u32);
        let _number = self.kept.insert_reserved(Object {
            key,
            step_number: birth,
            size,
            stamp: 0,
            holds: 1,
            refs: 0,
        });
        Ok(key)
    }

    /// Returns the object with this key, if it exists.
    pub fn get(&self, key: ObjectKey) -> Option<Object>
        ensures { result ≡ object_at self.now key }
    {
        self.find(key)
    }

    /// Adds a handle to the object's count. The object must exist.
    pub fn hold(&mut self, key: ObjectKey)
        requires { passes (λ x. nat_lt x.holds u32.MAX) self.old key ≡ true }
        ensures { self.new ≡ changed_at key held self.old }
    {
        let object = self.there(key);
        let more = Object {
            holds: object.holds + 1,
            ..object
        };
        self.set(key, object, more);
    }

    /// Removes a handle from the object's count. If nothing refers to the object then, it is freed and returned
    /// (drm-gem(7)).
    pub fn unhold(&mut self, key: ObjectKey) -> Option<Dead>
        requires { passes (λ x. nat_le 1 x.holds) self.old key ≡ true }
        ensures dead { result ≡ dead_after unheld self.old key }
        ensures gone { OnSome result (self.new ≡ without_key key self.old) }
        ensures stays { IfNone result (self.new ≡ changed_at key unheld self.old) }
    {
        let object = self.there(key);
        let fewer = Object {
            holds: object.holds - 1,
            ..object
        };
        self.settle(key, object, fewer)
    }

    /// Adds a token or framebuffer to the object's count. The object must exist.
    pub fn refer(&mut self, key: ObjectKey)
        requires { passes (λ x. nat_lt x.refs u32.MAX) self.old key ≡ true }
        ensures { self.new ≡ changed_at key referred self.old }
    {
        let object = self.there(key);
        let more = Object {
            refs: object.refs + 1,
            ..object
        };
        self.set(key, object, more);
    }

    /// Removes a token or framebuffer from the object's count. If nothing refers to the object then, it is freed and
    /// returned.
    pub fn unrefer(&mut self, key: ObjectKey) -> Option<Dead>
        requires { passes (λ x. nat_le 1 x.refs) self.old key ≡ true }
        ensures dead { result ≡ dead_after unreferred self.old key }
        ensures gone { OnSome result (self.new ≡ without_key key self.old) }
        ensures stays { IfNone result (self.new ≡ changed_at key unreferred self.old) }
    {
        let object = self.there(key);
        let fewer = Object {
            refs: object.refs - 1,
            ..object
        };
        self.settle(key, object, fewer)
    }

    /// Returns the number of handles that name the object.
    pub fn holds(&self, key: ObjectKey) -> u32
        requires { is_there self.now key ≡ true }
        ensures { option_map (λ x. x.holds) (object_at self.now key) ≡ Some result }
    {
        self.there(key).holds
    }

    /// Returns the number of tokens and framebuffers that refer to the object.
    pub fn refs(&self, key: ObjectKey) -> u32
        requires { is_there self.now key ≡ true }
        ensures { option_map (λ x. x.refs) (object_at self.now key) ≡ Some result }
    {
        self.there(key).refs
    }

    /// Returns the number of the step that created the object.
    pub fn birth(&self, key: ObjectKey) -> u32
        requires { is_there self.now key ≡ true }
        ensures { option_map (λ x. x.step_number) (object_at self.now key) ≡ Some result }
    {
        self.there(key).step_number
    }

    /// Returns the object's size in bytes.
    pub fn size(&self, key: ObjectKey) -> u64
        requires { is_there self.now key ≡ true }
        ensures { option_map (λ x. x.size) (object_at self.now key) ≡ Some result }
    {
        self.there(key).size
    }

    /// Returns the object's stamp, which represents its contents (own).
    pub fn stamp(&self, key: ObjectKey) -> u64
        requires { is_there self.now key ≡ true }
        ensures { option_map (λ x. x.stamp) (object_at self.now key) ≡ Some result }
    {
        self.there(key).stamp
    }

    /// Sets the object's stamp (own).
    pub fn set_stamp(&mut self, key: ObjectKey, stamp: u64)
        requires { is_there self.old key ≡ true }
        ensures { self.new ≡ changed_at key (stamped stamp) self.old }
    {
        let object = self.there(key);
        self.set(key, object, Object { stamp, ..object });
    }

    /// Returns the row at a position, from 0, of the rows of an audit's kind (own). Objects are kind 3, in the order in
    /// which they were created. No other kind has rows here. Does not allocate.
    pub fn nth(&self, kind: u32, i: usize) -> Option<Object>
        ensures { result ≡ nth_row self.now kind i }
    {
        if kind != OBJECT_KIND {
            return None;
        }
        self.nth_object(i)
    }

    /// Returns the object at a position, from 0, in the order in which they were created. Does not allocate.
    pub fn nth_object(&self, position: usize) -> Option<Object>
        ensures { result ≡ slice_get self.now.objects position }
    {
        let step_number = self.keys.nth(position)?;
        let number = *self.keys.get(step_number)?;
        self.kept.get(number as usize).copied()
    }

    // the object of a key, if it is there
    fn find(&self, key: ObjectKey) -> Option<Object>
        ensures value { result ≡ object_at self.now key }
        ensures differ { InOrder (λ x y. (x.key == y.key) ≡ false) self.now.objects }
    {
        self.kept.get(key.number() as usize).copied()
    }

    // the object of a key that exists
    fn there(&self, key: ObjectKey) -> Object
        requires { is_there self.now key ≡ true }
        ensures value { object_at self.now key ≡ Some result }
        ensures differ { InOrder (λ x y. (x.key == y.key) ≡ false) self.now.objects }
    {
        match self.find(key) {
            Some(object) => object,
            None => unreachable!(),
        }
    }

    // replaces the object of a key by the changed one
    fn set(&mut self, key: ObjectKey, old: Object, new: Object)
        requires there { object_at self.old key ≡ Some old }
        requires same_key { new.key ≡ old.key }
        requires same_step { new.step_number ≡ old.step_number }
        ensures { (f : gem.Object → gem.Object) → f old ≡ new → self.new ≡ changed_at key f self.old }
    {
        let Some(kept) = self.kept.get_mut(key.number() as usize) else {
            unreachable!()
        };
        *kept = new;
    }

    // the same, or removes the object if nothing refers to it
    fn settle(&mut self, key: ObjectKey, old: Object, new: Object) -> Option<Dead>
        requires there { object_at self.old key ≡ Some old }
        requires differ { InOrder (λ x y. (x.key == y.key) ≡ false) self.old.objects }
        requires same_key { new.key ≡ old.key }
        requires same_step { new.step_number ≡ old.step_number }
        ensures dead { (f : gem.Object → gem.Object) → f old ≡ new → result ≡ dead_after f self.old key }
        ensures gone { OnSome result (self.new ≡ without_key key self.old) }
        ensures stays { (f : gem.Object → gem.Object) → f old ≡ new → IfNone result (self.new ≡ changed_at key f self.old) }
    {
        if new.holds > 0 || new.refs > 0 {
            self.set(key, old, new);
            return None;
        }
        let dead = Dead {
            birth: old.step_number,
            size: old.size,
        };
        self.remove(key, old);
        Some(dead)
    }

    // removes the object of a key
    fn remove(&mut self, key: ObjectKey, old: Object)
        requires { object_at self.old key ≡ Some old }
        ensures { self.new ≡ without_key key self.old }
    {
        let _number = self.keys.remove(old.step_number);
        let _object = self.kept.try_remove(key.number() as usize);
    }
}
