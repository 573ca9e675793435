//! Which names are bound: a map, and a list by which what was hidden comes back.

ghost use Rattle.std.specs.Prelude.{◌≡◌, ◌≤◌, ◌<◌, ◌-◌, ◌++◌, [], ◌∷◌, length, take, None, IsSome, OnOk, OnErr};
ghost use Rattle.dfg_terms.specs.Scopes.{bound};
ghost use Rattle.dfg_terms.specs.ScopeViews.{number_in, IsRebound};

use indexmap::IndexMap;
use std::alloc::{AllocError, Global};
use std::marker::Model;

/// A binding, with what its name was bound to before.
#[derive(Clone, Copy, Debug)]
struct Shadow<'a> {
    name: &'a [u8],
    number: u32,
    hidden: Option<u32>,
}

/// The bindings that are in force, which contracts see as a list with the innermost one last.
///
/// A name is looked up in a map, however many names are bound; leaving a scope gives back what its names were bound to
/// before. The names are lent by the text.
#[derive(Drop)]
pub struct Scope<'a> {
    /// What each name is bound to now; none where its bindings were left.
    numbers: IndexMap<&'a [u8], Option<u32>>,
    shadows: Vec<Shadow<'a>>,
}

impl<'a> Model for Scope<'a> {
    ghost use Rattle.std.specs.Prelude.{List, map};
    ghost use Rattle.dfg_terms.specs.Scopes.{Binding};
    ghost use Rattle.dfg_terms.specs.ScopeViews.{shown, IsScope};

    ghost Value = { List Binding };

    ghost view = { λ s. map shown s.shadows.items };

    ghost invariant = { λ s. IsScope s.numbers.entries s.shadows.items };
}

/// Says another thing of a name; an error is want of memory, where the name is new, and changes nothing.
fn rebind<'a>(
    numbers: &mut IndexMap<&'a [u8], Option<u32>>,
    name: &'a [u8],
    number: Option<u32>,
) -> Result<(), AllocError>
    ensures ok { OnOk result (IsRebound numbers.old.entries numbers.new.entries name.now number) }
    ensures err { OnErr result (numbers.new.entries ≡ numbers.old.entries) }
    ensures new { OnErr result (number_in numbers.old.entries name.now ≡ None) }
{
    numbers.insert(name, number)?;
    Ok(())
}

/// Says another thing of a name that is bound.
fn give_back<'a>(numbers: &mut IndexMap<&'a [u8], Option<u32>>, name: &'a [u8], number: Option<u32>)
    requires { IsSome (number_in numbers.old.entries name.now) }
    ensures { IsRebound numbers.old.entries numbers.new.entries name.now number }
{
    match rebind(numbers, name, number) {
        Ok(()) => {}
        Err(_) => unreachable!(),
    }
}

impl<'a> Scope<'a> {
    /// Nothing is bound; it takes no memory.
    pub fn new(alloc: Global) -> Scope<'a>
        ensures { result ≡ [] }
    {
        Scope {
            numbers: IndexMap::new(alloc),
            shadows: Vec::new(alloc),
        }
    }

    /// How many bindings are in force.
    pub fn len(&self) -> usize
        ensures { result ≡ length self.now }
    {
        self.shadows.len()
    }

    /// The number of the innermost binding of the name.
    pub fn bound(&self, name: &[u8]) -> Option<u32>
        ensures { result ≡ bound name.now self.now }
    {
        match self.numbers.get(name) {
            Some(number) => *number,
            None => None,
        }
    }

    /// Binds the name, which hides what it was bound to; an error is want of memory, and changes nothing.
    pub fn bind(&mut self, name: &'a [u8], number: u32) -> Result<(), AllocError>
        ensures ok { OnOk result (self.new ≡ self.old ++ record { name = name.now; number = number } ∷ []) }
        ensures err { OnErr result (self.new ≡ self.old) }
    {
        let hidden = self.bound(name);
        self.shadows.reserve(1)?;
        rebind(&mut self.numbers, name, Some(number))?;
        self.shadows.push_reserved(Shadow {
            name,
            number,
            hidden,
        });
        Ok(())
    }

    /// Leaves the innermost binding.
    fn leave_one(&mut self)
        requires { 0 < length self.old }
        ensures { self.new ≡ take (length self.old - 1) self.old }
    {
        if let Some(shadow) = self.shadows.pop() {
            give_back(&mut self.numbers, shadow.name, shadow.hidden);
        }
    }

    /// Leaves the innermost bindings, so that as many as the count are left.
    pub fn leave(&mut self, count: usize)
        requires { count ≤ length self.old }
        ensures { self.new ≡ take count self.old }
    {
        while self.len() > count {
            self.leave_one();
        }
    }
}
