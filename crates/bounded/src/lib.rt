//! A list of at most so many values, with room for all of them reserved at once, so that nothing allocates later.
#![tactic(auto)]

ghost use Rattle.std.specs.Prelude.{◌≡◌, ◌+◌, ◌≤◌, [], ◌∷◌, ◌++◌, IfOk, OnErr, if◌then◌else◌, is_ok, nat_lt, List, length, vec_len, vec_capacity, insert, set, min, Some, codes};

use std::alloc::{AllocError, Global};
use std::error::Error;
use std::fmt;
use std::marker::Model;

/// There are as many values as there may be.
#[derive(Clone, Copy, Debug, PartialEq, Eq)]
pub struct Full;

impl fmt::Display for Full {
    ghost output = { λ _. Some (codes "there is no room for more") };

    fn fmt<W: fmt::Write>(&self, f: &mut fmt::Formatter<W>) -> fmt::Result {
        f.write_str("there is no room for more")
    }
}

impl Error for Full {}

/// A list of at most `MOST` values.
#[derive(Drop)]
pub struct Bounded<T, const MOST: usize> {
    values: Vec<T>,
}

// Clauses see the values in order.
impl<T, const MOST: usize> Model for Bounded<T, MOST> {
    ghost Value = { List T };

    ghost view = { λ b. b.values.items };

    ghost invariant = { λ b. (MOST ≤ vec_capacity b.values) × (vec_len b.values ≤ MOST) };
}

impl<T: Copy, const MOST: usize> Bounded<T, MOST> {
    /// No values, with room for all that there may be.
    pub fn new(heap: Global) -> Result<Bounded<T, MOST>, AllocError>
        ensures { IfOk result (λ b. b ≡ []) }
    {
        Ok(Bounded {
            values: Vec::with_capacity(heap, MOST)?,
        })
    }

    /// Lets all values go; the room stays.
    pub fn clear(&mut self)
        ensures { self.new ≡ [] }
    {
        self.values.clear();
    }

    /// One value more, behind the others.
    pub fn push(&mut self, value: T) -> Result<(), Full>
        ensures room { is_ok result ≡ nat_lt (length self.old) MOST }
        ensures items { self.new ≡ (if is_ok result then self.old ++ value ∷ [] else self.old) }
    {
        if self.values.len() >= MOST {
            return Err(Full);
        }
        self.values.push_reserved(value);
        Ok(())
    }

    /// One value more, in front of the one at `at`, or behind all where there is none.
    pub fn insert(&mut self, at: usize, value: T) -> Result<(), Full>
        ensures room { is_ok result ≡ nat_lt (length self.old) MOST }
        ensures items { self.new ≡ (if is_ok result then insert self.old (min at (length self.old)) value else self.old) }
    {
        let len = self.values.len();
        if len >= MOST {
            return Err(Full);
        }
        // the room is reserved, so this never fails
        let _ = self.values.insert(at.min(len), value);
        Ok(())
    }

    /// Puts a value in place of the one at `at`, if there is one.
    pub fn set(&mut self, at: usize, value: T)
        ensures { self.new ≡ set self.old at value }
    {
        if at < self.values.len() {
            self.values[at] = value;
        }
    }

    pub fn as_slice(&self) -> &[T]
        ensures values { result.now ≡ self.now }
        ensures few { length result.now ≤ MOST }
    {
        self.values.as_slice()
    }

    pub fn len(&self) -> usize
        ensures { result ≡ length self.now }
    {
        self.values.len()
    }
}
