//! The open lease tokens.

ghost use Rattle.std.specs.Prelude.{◌≡◌, ◌≤◌, ◌↔◌, true, None, not, filter, OnOk, OnErr, IfOk, IsTrue};
ghost use Rattle.std.specs.Option.{is_some};
ghost use Rattle.drm_index_array.specs.Rows.{placed};
ghost use Rattle.drm_leases.specs.Leases as sets;
ghost use Rattle.drm_leases.specs.Tokens.{no_tokens, lease_token, token_before};

use drm_id_alloc::IdTable;
use drm_index_array::IndexArray;
use drm_masters::NoMemory;
use std::alloc::Global;
use std::marker::Model;

/// The open lease tokens, each of one lessee, found both ways. Contracts see a flat list, in the order of the tokens.
#[derive(Drop)]
pub struct LeaseTokens {
    // the step numbers of the lessees
    lessees: IdTable<u32>,
    // the tokens, by the step numbers of their lessees
    tokens: IndexArray<u32>,
}

impl Model for LeaseTokens {
    ghost use Rattle.drm_leases.specs.Tokens.{TokenRows, rows_of, AreTokens};

    ghost Value = { TokenRows };

    ghost view = { rows_of };

    ghost invariant = { AreTokens };
}

impl LeaseTokens {
    /// Creates a table without tokens. It can allocate the tokens from 1 to `last`. Does not allocate memory.
    pub fn new(alloc: Global, last: u32) -> LeaseTokens
        requires { 1 ≤ last }
        ensures { result ≡ no_tokens last }
    {
        LeaseTokens {
            lessees: IdTable::new(alloc, 1, last),
            tokens: IndexArray::new(alloc),
        }
    }

    /// Returns whether no token is free. Does not allocate.
    pub fn is_full(&self) -> bool
        ensures { IsTrue result ↔ (sets.next_of self.now.rows self.now.last_given self.now.last ≡ None) }
    {
        self.lessees.is_full()
    }

    /// Returns the token that was allocated last. Does not allocate.
    pub fn last_given(&self) -> Option<u32>
        ensures { result ≡ self.now.last_given }
    {
        self.lessees.last_given()
    }

    /// Returns the lessee that a token opens. Does not allocate.
    pub fn lessee(&self, token: u32) -> Option<u32>
        ensures { result ≡ sets.token_master self.now.rows token }
    {
        self.lessees.get(token).copied()
    }

    /// Returns whether a lessee has a token. Does not allocate.
    pub fn is_open(&self, lessee: u32) -> bool
        ensures { result ≡ sets.has_token self.now.rows lessee }
    {
        self.of(lessee).is_some()
    }

    /// Returns the token of a lessee. Does not allocate.
    pub fn of(&self, lessee: u32) -> Option<u32>
        ensures { result ≡ sets.token_of self.now.rows lessee }
    {
        self.tokens.get(lessee).copied()
    }

    /// Allocates the next token in rotation for a lessee that has none. If memory is refused, nothing changes.
    pub fn give(&mut self, lessee: u32) -> Result<u32, NoMemory>
        requires free { is_some (sets.next_of self.old.rows self.old.last_given self.old.last) ≡ true }
        ensures given { IfOk result (λ token. sets.next_of self.old.rows self.old.last_given self.old.last ≡ Some token) }
        ensures ok { IfOk result (λ token. self.new ≡ record self.old { last_given = Some token; rows = placed token_before (lease_token token lessee) self.old.rows }) }
        ensures err { OnErr result (self.new ≡ self.old) }
    {
        let Some(token) = self.lessees.next_in_turn() else {
            unreachable!()
        };
        if let Err(_fault) = self.tokens.insert(lessee, token) {
            return Err(NoMemory);
        }
        if let Err(_fault) = self.lessees.add_cyclic(lessee) {
            let _token = self.tokens.remove(lessee);
            return Err(NoMemory);
        }
        Ok(token)
    }

    /// Removes an open token, and returns the lessee that it opened. Does not allocate.
    pub fn spend(&mut self, token: u32) -> Option<u32>
        ensures lessee { result ≡ sets.token_master self.old.rows token }
        ensures spent { self.new ≡ record self.old { rows = filter (λ row. not (sets.is_token token row)) self.old.rows } }
    {
        let Some(lessee) = self.lessees.remove(token) else {
            return None;
        };
        let _token = self.tokens.remove(lessee);
        Some(lessee)
    }

    /// Removes the token of a lessee, if it has one. Does not allocate.
    pub fn forget(&mut self, lessee: u32)
        ensures { self.new ≡ record self.old { rows = filter (λ row. not (sets.is_token_of lessee row)) self.old.rows } }
    {
        if let Some(token) = self.tokens.remove(lessee) {
            let _lessee = self.lessees.remove(token);
        }
    }
}
