//! Skolem symbols: how their names are found, and how they are added to a signature.
ghost use Rattle.std.specs.Prelude.{◌≡◌, ◌+◌, ◌<◌, ◌≤◌, ◌^◌, IfOk};
ghost use Rattle.std.specs.String.{string_bytes};
ghost use Rattle.spl_symbols.specs.Skolems.{skolem_prefix, skolem_name, IsFirstNew, SkolemAnswer};

use crate::table::Signature;
use spl_terms::{Kind, Symbol};
use std::alloc::{AllocError, Global};
use thiserror::Error;

/// Why a Skolem symbol was not added.
#[derive(Debug, Drop, Error)]
pub enum SkolemError {
    /// There are 65,536 symbols.
    #[error("there are 65536 symbols")]
    Full,
    /// There was no memory.
    #[error("out of memory")]
    Memory,
}

fn skolem_prefix(arity: u32) -> &'static str
    ensures { result.now ≡ skolem_prefix arity }
{
    if arity == 0 { "skc" } else { "skf" }
}

/// The name that the Skolem symbol with this number may take.
fn skolem_name(alloc: Global, arity: u32, k: u64) -> Result<String, AllocError>
    ensures { IfOk result (λ name. string_bytes name ≡ skolem_name arity k) }
{
    let mut name = String::from_str(alloc, skolem_prefix(arity))?;
    let digits = k.to_string(alloc)?;
    name.push_str(digits.as_str())?;
    Ok(name)
}

/// The first number from this one on whose name isn't declared, and this name. Fewer than 65,537 are passed over.
fn first_new(
    signature: &Signature,
    alloc: Global,
    from: u64,
    arity: u32,
) -> Result<(u64, String), AllocError>
    requires { from ≤ 2 ^ 62 }
    ensures first { IfOk result (λ found. IsFirstNew signature.now arity from found.0) }
    ensures near { IfOk result (λ found. found.0 ≤ from + 65536) }
    ensures name { IfOk result (λ found. string_bytes found.1 ≡ skolem_name arity found.0) }
{
    signature.names_are_identifiers();
    for k in from..from + 65537 {
        let name = skolem_name(alloc, arity, k)?;
        if signature.find(name.as_str()).is_none() {
            return Ok((k, name));
        }
    }
    unreachable!()
}

impl Signature {
    /// Adds a Skolem symbol with so many arguments at the end. Its number is the count before, and it is a function.
    ///
    /// Its name is `skc` (without arguments) or `skf` and then a number: the first one from `next` on with which the name is
    /// not declared. `next` becomes the number behind that one; it is 1 at the first Skolem symbol of a problem. `Full` comes
    /// exactly where there are 65,536 symbols. After an error the signature and `next` are as before.
    pub fn skolem(
        &mut self,
        alloc: Global,
        next: &mut u64,
        arity: u32,
    ) -> Result<Symbol, SkolemError>
        requires { next.old ≤ 2 ^ 62 }
        ensures answer { SkolemAnswer self.old self.new next.old next.new arity result }
        ensures near { next.new ≤ next.old + 65537 }
    {
        if self.count() >= 65536 {
            return Err(SkolemError::Full);
        }
        let (k, name) = match first_new(self, alloc, *next, arity) {
            Ok(found) => found,
            Err(_) => return Err(SkolemError::Memory),
        };
        match self.declare(alloc, name.as_str(), arity, Kind::Function) {
            Ok(symbol) => {
                *next = k + 1;
                Ok(symbol)
            }
            // The name is new, and there is room.
            Err(_) => Err(SkolemError::Memory),
        }
    }
}
