//! The open tokens.

ghost use Rattle.std.specs.Prelude.{◌≡◌, ◌≤◌, ◌↔◌, Some, None, find, slice_get, OnSome, OnErr, IfOk, IfErr, IfSome, IfNone, IsTrue, option_map};
ghost use Rattle.drm_share.specs.Tokens.{AreTokens, empty_tokens, is_token, is_token_of, is_exported_by, next_token, with_token, without_token, token, nth_row};
ghost use Rattle.drm_share.specs.ShareFault.{IsFull};

use crate::faults::ShareFault;
use crate::rows::SharedToken;
use drm_gem::ObjectKey;
use drm_id_alloc::{Groups, IdTable};
use std::alloc::Global;
use std::marker::Model;

/// The number of an audit's rows of tokens (own).
const TOKEN_KIND: u32 = 5;

// The client and the object of an open token.
#[derive(Clone, Copy)]
pub(crate) struct Export {
    pub(crate) client: u32,
    pub(crate) object: ObjectKey,
}

/// The open tokens, used in place of the file descriptors of exported objects (drm-mm, PRIME; tokens are own), each a
/// number from 1 on. An object may have several. Contracts see a flat list, in the order of the tokens, and the token
/// that was allocated last.
///
/// # Examples
///
/// ```rust
/// use drm_gem::ObjectKey;
/// use drm_share::Tokens;
///
/// let alloc = rt.alloc();
/// let mut tokens = Tokens::new(alloc, 100);
/// let object = ObjectKey::from_number(4);
/// let Ok(token) = tokens.export(9, object) else { return };
/// assert!(rt; tokens.close(8, token).is_none());
/// assert!(rt; tokens.close(9, token) == Some(object));
/// ```
pub struct Tokens {
    exports: IdTable<Export>,
    // the tokens, by the clients that exported them
    owned: Groups,
}

// Written out, so that it is proved once: a derived one is proved again in each crate that drops such a value.
impl Drop for Tokens {
    fn drop(self) {
        let Tokens { exports, owned } = self;
        drop(exports);
        drop(owned);
    }
}

impl Model for Tokens {
    ghost use Rattle.drm_share.specs.Tokens.{TokenList};
    ghost use Rattle.drm_share.specs.Tables.{token_list, HasOwners};

    ghost Value = { TokenList };

    ghost view = { λ tokens. token_list tokens.exports };

    ghost invariant = { λ tokens. HasOwners tokens.exports tokens.owned };
}

impl Tokens {
    /// Creates a table without tokens. It can allocate the tokens from 1 to `last`. Does not allocate memory.
    pub fn new(alloc: Global, last: u32) -> Tokens
        requires { 1 ≤ last }
        ensures { result ≡ empty_tokens last }
    {
        Tokens {
            exports: IdTable::new(alloc, 1, last),
            owned: Groups::new(alloc),
        }
    }

    /// Exports an object of a client: allocates a token and returns it (drm-mm, PRIME).
    ///
    /// It is the lowest free token above the one that was allocated last. If there is none, it is the lowest free one
    /// (own).
    ///
    /// # Errors
    ///
    /// `Full` if no token is free, `NoMemory` if memory is refused. The tokens are then unchanged.
    pub fn export(&mut self, client: u32, object: ObjectKey) -> Result<u32, ShareFault>
        ensures given { IfOk result (λ given. next_token self.old ≡ Some given) }
        ensures low { IfOk result (λ given. 1 ≤ given) }
        ensures high { IfOk result (λ given. given ≤ self.old.last) }
        ensures ok { IfOk result (λ given. self.new ≡ with_token self.old (token given client object)) }
        ensures err { OnErr result (self.new ≡ self.old) }
        ensures full { IfErr result (λ fault. IsFull fault ↔ (next_token self.old ≡ None)) }
    {
        let Some(token) = self.exports.next_in_turn() else {
            return Err(ShareFault::Full);
        };
        if let Err(_fault) = self.owned.note(client, token) {
            return Err(ShareFault::NoMemory);
        }
        if let Err(_fault) = self.exports.add_cyclic(Export { client, object }) {
            self.owned.forget(client, token);
            return Err(ShareFault::NoMemory);
        }
        Ok(token)
    }

    /// Returns whether no token is free. Does not allocate.
    pub fn is_full(&self) -> bool
        ensures { IsTrue result ↔ (next_token self.now ≡ None) }
    {
        self.exports.is_full()
    }

    /// Returns the object of a token, if the token is open. Does not allocate.
    pub fn lookup(&self, token: u32) -> Option<ObjectKey>
        ensures object { result ≡ option_map (λ row. row.object) (find (is_token token) self.now.tokens) }
        ensures tokens { AreTokens self.now }
    {
        let found = self.exports.get(token)?;
        Some(found.object)
    }

    /// Closes an open token of a client, and returns its object (own). Does not allocate.
    ///
    /// If the token is not open, or another client exported it, it returns `None`, and nothing changes.
    pub fn close(&mut self, client: u32, token: u32) -> Option<ObjectKey>
        ensures object { result ≡ option_map (λ row. row.object) (find (is_token_of client token) self.old.tokens) }
        ensures closed { OnSome result (self.new ≡ without_token self.old token) }
        ensures none { IfNone result (self.new ≡ self.old) }
        ensures tokens { AreTokens self.old }
    {
        let export = *self.exports.get(token)?;
        if export.client != client {
            return None;
        }
        let _export = self.exports.remove(token);
        self.owned.forget(client, token);
        Some(export.object)
    }

    /// Closes the lowest open token of a client, and returns it with its object. Returns `None` if the client has no
    /// open token. Does not allocate, and skips no token of another client.
    pub fn take_first_of(&mut self, client: u32) -> Option<(u32, ObjectKey)>
        ensures first { result ≡ option_map (λ row. (row.token, row.object)) (find (is_exported_by client) self.old.tokens) }
        ensures closed { IfSome result (λ taken. self.new ≡ without_token self.old taken.0) }
        ensures none { IfNone result (self.new ≡ self.old) }
        ensures tokens { AreTokens self.old }
    {
        let token = self.owned.next(client, 0)?;
        let Some(export) = self.exports.remove(token) else {
            unreachable!();
        };
        self.owned.forget(client, token);
        Some((token, export.object))
    }

    /// Returns the token that was allocated last, or `None` before the first. Closing it changes nothing here.
    pub fn last_given(&self) -> Option<u32>
        ensures last_given { result ≡ self.now.last_given }
        ensures tokens { AreTokens self.now }
    {
        self.exports.last_given()
    }

    /// Returns the row at a position, from 0, of the rows of an audit's kind (own). Tokens are kind 5, in rising order.
    /// No other kind has rows here. Does not allocate.
    pub fn nth(&self, kind: u32, i: usize) -> Option<SharedToken>
        ensures { result ≡ nth_row self.now kind i }
    {
        if kind != TOKEN_KIND {
            return None;
        }
        self.nth_token(i)
    }

    /// Returns the token at a position of the list of open tokens, from 0. Does not allocate.
    pub fn nth_token(&self, position: usize) -> Option<SharedToken>
        ensures row { result ≡ slice_get self.now.tokens position }
        ensures tokens { AreTokens self.now }
    {
        let token = self.exports.nth(position)?;
        let export = self.exports.get(token)?;
        Some(SharedToken {
            token,
            client: export.client,
            object: export.object,
        })
    }
}
