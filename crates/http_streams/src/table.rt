//! The connections that are open.
ghost use Rattle.std.specs.Prelude.{
  ◌≡◌,
  ◌⊎◌,
  ◌+◌,
  ◌<◌,
  ◌≤◌,
  ℕ,
  List,
  Some,
  None,
  IfSome,
  IfNone,
  OnOk,
  [],
  cond,
};
ghost use Rattle.std.specs.BTreeMap.{btree_map_len, get};
ghost use Rattle.std.specs.Ordering.{is_eq, nat_cmp};
ghost use Rattle.http_server.specs.Connection.{config_of, history};
ghost use Rattle.http_server.specs.History.{new_history};
ghost use Rattle.http_streams.specs.Tables.{TurnsAway};

use http_server::{Config, Connection};
use std::alloc::{AllocError, Global};
use std::collections::BTreeMap;
use std::hash::RandomState;

/// How many connections may be open.
pub(crate) const MAX_OPEN: usize = 1_024;

/// The connections that are open, by their numbers. A number is used once: each new one is larger than
/// all before it.
#[derive(Drop)]
pub struct Table {
    pub(crate) connections: BTreeMap<u32, Connection>,
    pub(crate) last: u32,
    pub(crate) config: Config,
    pub(crate) keys: RandomState,
    pub(crate) alloc: Global,
}

impl Table {
    /// Makes a table without connections.
    pub(crate) fn new(alloc: Global, keys: RandomState, config: Config) -> Self
        ensures none { (number : ℕ) → get nat_cmp result.connections number ≡ None }
        ensures few { btree_map_len result.connections ≡ 0 }
        ensures last { result.last ≡ 0 }
        ensures config { result.config ≡ config }
    {
        Table {
            connections: BTreeMap::new(alloc),
            last: 0,
            config,
            keys,
            alloc,
        }
    }

    /// Takes out the connection of a number, which is a new one if the number is. `None` refuses the
    /// number for good: it was used, or no more connections may be open.
    pub(crate) fn take(&mut self, number: u32) -> Option<Connection>
        ensures taken { IfSome result (λ c.
            ((get nat_cmp self.old.connections number ≡ Some c) × (self.new.last ≡ self.old.last))
            ⊎ ((self.old.last < number) × (self.new.last ≡ number)
            × (history c ≡ new_history) × (config_of c ≡ self.old.config))) }
        ensures refused { IfNone result (TurnsAway self.old self.new number) }
        ensures few { btree_map_len self.new.connections ≤ btree_map_len self.old.connections }
        ensures left { (other : ℕ) → get nat_cmp self.new.connections other
            ≡ cond (is_eq (nat_cmp number other)) None (get nat_cmp self.old.connections other) }
        ensures config { self.new.config ≡ self.old.config }
    {
        if let Some(connection) = self.connections.remove(&number) {
            return Some(connection);
        }
        if number <= self.last {
            return None;
        }
        self.last = number;
        if self.connections.len() >= MAX_OPEN {
            return None;
        }
        Some(Connection::new(self.alloc, self.keys, self.config))
    }

    /// Puts a connection under its number.
    pub(crate) fn put(&mut self, number: u32, connection: Connection) -> Result<(), AllocError>
        ensures put { OnOk result ((other : ℕ) → get nat_cmp self.new.connections other
            ≡ cond (is_eq (nat_cmp number other)) (Some connection)
            (get nat_cmp self.old.connections other)) }
        ensures last { self.new.last ≡ self.old.last }
        ensures few { OnOk result
            (btree_map_len self.new.connections ≤ btree_map_len self.old.connections + 1) }
        ensures config { self.new.config ≡ self.old.config }
    {
        match self.connections.insert(number, connection) {
            Ok(_) => Ok(()),
            Err(_) => Err(AllocError),
        }
    }
}
