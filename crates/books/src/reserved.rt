// A list with its memory.
ghost use Rattle.std.specs.Prelude.{◌≡◌, ◌+◌, ◌<◌, ◌≤◌, ◌↔◌, [], ◌∷◌, ◌++◌, length, IsSome, IfOk};
ghost use Rattle.std.specs.Option.{option_to_list};

use std::alloc::{AllocError, Global};
use std::marker::Model;

// at most N items, with the memory for N (`lines::Steps` is an open `Vec` with that memory, for all to write to)
#[derive(Drop)]
pub(crate) struct Reserved<T, const N: usize> {
    items: Vec<T>,
}

// Clauses see the items.
impl<T, const N: usize> Model for Reserved<T, N> {
    ghost use Rattle.std.specs.Prelude.{◌≤◌, List, length, vec_capacity};

    ghost Value = { List T };

    ghost view = { λ r. r.items.items };

    ghost invariant = { λ r. (length r.items.items ≤ N) × (N ≤ vec_capacity r.items) };
}

impl<T, const N: usize> Reserved<T, N> {
    // Takes the memory; adding items then asks for none.
    pub(crate) fn open(heap: Global) -> Result<Self, AllocError>
        ensures { IfOk result (λ r. r ≡ []) }
    {
        let items = Vec::with_capacity(heap, N)?;
        Ok(Reserved { items })
    }

    pub(crate) fn as_slice(&self) -> &[T]
        ensures items { result.now ≡ self.now }
        ensures few { length result.now ≤ N }
    {
        self.items.as_slice()
    }

    pub(crate) fn clear(&mut self)
    where
        T: Drop,
        ensures { self.new ≡ [] }
    {
        self.items.clear();
    }

    pub(crate) fn push(&mut self, item: T)
        requires { length self.old < N }
        ensures { self.new ≡ self.old ++ item ∷ [] }
    {
        self.items.push_reserved(item);
    }

    pub(crate) fn pop(&mut self) -> Option<T>
        ensures items { self.old ≡ self.new ++ option_to_list result }
        ensures last { IsSome result ↔ (0 < length self.old) }
    {
        self.items.pop()
    }

    pub(crate) fn extend_from_slice(&mut self, more: &[T])
    where
        T: Copy,
        requires { length self.old + length more.now ≤ N }
        ensures { self.new ≡ self.old ++ more.now }
    {
        // One by one, since the method of `Vec` may ask for memory.
        for item in more {
            self.push(*item);
        }
    }
}
