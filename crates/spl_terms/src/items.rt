//! The list type of terms and clauses, which contracts see as a plain list.
ghost use Rattle.std.specs.Prelude.{◌≡◌, [], ◌∷◌, ◌++◌, ◌<◌, ◌≤◌, length, slice_get, slice_set, remove, take, ◌↔◌, IsTrue, IfOk, MatchOption, OnOk, OnErr};
ghost use Rattle.std.specs.Option.{option_copied};

use std::alloc::{AllocError, Global};
use std::marker::Model;

/// A list of values in one block of memory, which contracts see as the plain list.
///
/// It is a `Vec` whose capacity and address no contract sees, so a copy equals what it was copied from, and a type
/// may hold a list of itself. It is made from a `Vec` and gives it back without taking memory.
#[derive(Debug, Drop)]
pub struct Items<T> {
    items: Vec<T>,
}

impl<T> Model for Items<T> {
    ghost use Rattle.std.specs.Prelude.{List};
    ghost use Rattle.std.specs.Coded.{coded_list};

    ghost Value = { List T };

    ghost coded = { coded_list T.code };

    ghost view = { λ list. list.items.items };
}

impl<T> Items<T> {
    ghost use Rattle.std.specs.Prelude.{◌≡◌, [], ◌∷◌, ◌++◌, length, ◌↔◌, IsTrue, IfOk, MatchOption};
    ghost use Rattle.std.specs.Borrow.{Array, Lends, sem};
    ghost use Rattle.spl_terms.specs.Lists.{refilled};
    ghost use Rattle.spl_terms.specs.contracts.items.Items.{the_row};

    /// The empty list; it takes no memory.
    pub fn new(alloc: Global) -> Items<T>
        ensures { result ≡ [] }
    {
        Items {
            items: Vec::new(alloc),
        }
    }

    /// An empty list with room for `count` items, and no more.
    pub fn with_room(alloc: Global, count: usize) -> Result<Items<T>, AllocError>
        ensures { IfOk result (λ list. list ≡ []) }
    {
        Ok(Items {
            items: Vec::with_capacity(alloc, count)?,
        })
    }

    /// The items of a `Vec`, in its memory.
    pub fn from_vec(items: Vec<T>) -> Items<T>
        ensures { result ≡ items.items }
    {
        Items { items }
    }

    /// The items as a `Vec`, in the list's memory.
    pub fn into_vec(self) -> Vec<T>
        ensures { result.items ≡ self }
    {
        let Items { items } = self;
        items
    }

    /// The items in order.
    pub fn as_slice(&self) -> &[T]
        ensures { result.now ≡ self.now }
    {
        self.items.as_slice()
    }

    /// The items in order, to be changed in place.
    pub fn as_mut_slice(&mut self) -> &mut [T]
        ensures* writes_back { sem 𝓛 (Lends (the_row T.row) (Array T.row 0) self.entry result (refilled self.old)) }
        ensures value { result.now ≡ self.old }
        ensures len { length result.now ≡ length self.old }
    {
        self.items.as_mut_slice()
    }

    /// How many items there are.
    pub fn len(&self) -> usize
        ensures { result ≡ length self.now }
    {
        self.items.len()
    }

    /// Whether there is no item.
    pub fn is_empty(&self) -> bool
        ensures { IsTrue result ↔ (self.now ≡ []) }
    {
        self.items.is_empty()
    }

    /// Takes the last item off; none where the list is empty.
    pub fn pop(&mut self) -> Option<T>
        ensures { MatchOption result ((self.old ≡ []) × (self.new ≡ [])) (λ last. self.old ≡ self.new ++ last ∷ []) }
    {
        self.items.pop()
    }
}

impl<T: Copy> Items<T> {
    /// A copy of the slice, with no room to spare.
    pub fn from_slice(alloc: Global, items: &[T]) -> Result<Items<T>, AllocError>
        ensures { IfOk result (λ list. list ≡ items.now) }
    {
        Ok(Items {
            items: Vec::from_slice(alloc, items)?,
        })
    }
}

impl<T: Drop> Items<T> {
    /// Adds an item at the end; on want of memory the list is as before.
    pub fn push(&mut self, item: T) -> Result<(), AllocError>
        ensures ok { OnOk result (self.new ≡ self.old ++ item ∷ []) }
        ensures err { OnErr result (self.new ≡ self.old) }
    {
        self.items.push(item)?;
        Ok(())
    }

    /// Moves the items of `more` to the end; on want of memory the list is as before, and `more` is dropped.
    pub fn push_all(&mut self, more: Items<T>) -> Result<(), AllocError>
        ensures ok { OnOk result (self.new ≡ self.old ++ more) }
        ensures err { OnErr result (self.new ≡ self.old) }
    {
        let Items { mut items } = more;
        self.items.append(&mut items)
    }

    /// Drops the items past the first `count`.
    pub fn truncate(&mut self, count: usize)
        ensures { self.new ≡ take count self.old }
    {
        self.items.truncate(count);
    }

    /// Takes the item at this place out, from 0; those behind it move up.
    pub fn remove(&mut self, place: usize) -> T
        requires { place < length self.old }
        ensures item { slice_get self.old place ≡ Some result }
        ensures rest { self.new ≡ remove self.old place }
    {
        self.items.remove(place)
    }

    /// Puts another item at this place, from 0.
    pub fn set(&mut self, place: usize, item: T)
        requires { place < length self.old }
        ensures { self.new ≡ slice_set self.old place item }
    {
        self.items[place] = item;
    }
}

/// The item at this place, from 0; none past the end.
pub fn at<T>(items: &[T], place: usize) -> Option<&T>
    ensures { option_copied result ≡ slice_get items.now place }
{
    items.get(place)
}
