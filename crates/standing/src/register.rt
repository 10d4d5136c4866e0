// A list of at most so many entries. It has its whole memory from the start, so no later call asks for any.
ghost use Rattle.std.specs.Prelude.{◌≡◌, ◌+◌, ◌-◌, ◌<◌, ◌≤◌, [], ◌∷◌, ◌++◌, length, slice_set, IfOk, OnSome, vec_len, vec_capacity};
ghost use Rattle.rules.specs.Rows.{numbered};
ghost use Rattle.rules.specs.Tests.{room_test};

use rules::refusal::Refusal;
use std::alloc::{AllocError, Global};

// Two facts of the struct and no model: who holds the lists of a book, knows how long they are at most.
#[derive(Drop)]
pub struct Register<T, const MOST: usize> {
    entries: Vec<T>,
    ghost few: { vec_len entries ≤ MOST },
    ghost room: { MOST ≤ vec_capacity entries },
}

impl<T: Copy, const MOST: usize> Register<T, MOST> {
    pub fn new(heap: Global) -> Result<Register<T, MOST>, AllocError>
        ensures { IfOk result (λ r. r.entries.items ≡ []) }
    {
        let entries = Vec::with_capacity(heap, MOST)?;
        Ok(Register { entries })
    }

    pub fn clear(&mut self)
        ensures { self.new.entries.items ≡ [] }
    {
        self.entries.clear();
    }

    // There is room for one more.
    pub fn test_room(&self, refusal: Refusal) -> Result<(), Refusal>
        ensures { result ≡ room_test MOST (vec_len self.now.entries) refusal }
    {
        refusal.when(self.entries.len() >= MOST)
    }

    // Puts an entry after the others, and answers its number.
    pub fn push(&mut self, entry: T) -> u64
        requires { vec_len self.old.entries < MOST }
        ensures number { result ≡ vec_len self.old.entries + 1 }
        ensures pushed { self.new.entries.items ≡ self.old.entries.items ++ entry ∷ [] }
    {
        self.entries.push_reserved(entry);
        self.entries.len() as u64
    }

    pub fn as_slice(&self) -> &[T]
        ensures all { result.now ≡ self.now.entries.items }
        ensures few { length result.now ≤ MOST }
    {
        self.entries.as_slice()
    }

    // The entry of that number, counted from 1.
    pub fn numbered(&self, number: u64) -> Option<T>
        ensures same { result ≡ numbered self.now.entries.items number }
        ensures stands { OnSome result ((1 ≤ number) × (number ≤ vec_len self.now.entries)) }
    {
        let k = number.checked_sub(1)?;
        self.entries.get(k as usize).copied()
    }

    // Puts an entry in place of that of the number.
    pub fn replace(&mut self, number: u64, entry: T)
        requires { (1 ≤ number) × (number ≤ vec_len self.old.entries) }
        ensures { self.new.entries.items ≡ slice_set self.old.entries.items (number - 1) entry }
    {
        self.entries[number as usize - 1] = entry;
    }
}
