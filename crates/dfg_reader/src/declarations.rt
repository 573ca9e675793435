//! Symbols looked up and declared while a problem is read.

ghost use Rattle.std.specs.Prelude.{◌≡◌, ◌<◌, ◌++◌, [], ◌∷◌, None, true, length, OnOk, OnErr};
ghost use Rattle.dfg_tokens.specs.Names.{is_name};
ghost use Rattle.spl_symbols.specs.Symbols.{found};
ghost use Rattle.dfg_reader.specs.Symbols.{lookup};

use crate::symbols::Found;
use spl_symbols::Signature;
use spl_terms::Kind;
use std::alloc::{AllocError, Global};

/// The declared symbol of this name, with its number of arguments.
#[tactic(auto, unfolding(crate::specs::Symbols::lookup), using(crate::proofs::Names::looked_up))]
pub fn lookup(symbols: &Signature, name: &str) -> Option<Found>
    ensures { result ≡ lookup name.now symbols.now }
{
    match symbols.find(name) {
        Some(symbol) => Some(Found {
            symbol,
            arity: symbols.arity(symbol),
        }),
        None => None,
    }
}

/// Declares an identifier that is no reserved word and is new, where there is room for it. An error is want of memory.
pub fn declare(
    symbols: &mut Signature,
    alloc: Global,
    name: &str,
    arity: u32,
    kind: Kind,
) -> Result<(), AllocError>
    requires named { is_name name.now ≡ true }
    requires new { found name.now symbols.old ≡ None }
    requires room { length symbols.old < 65536 }
    ensures ok { OnOk result (symbols.new ≡ symbols.old ++ record { name = name.now; arity = arity; kind = kind } ∷ []) }
    ensures err { OnErr result (symbols.new ≡ symbols.old) }
{
    match symbols.declare(alloc, name, arity, kind) {
        Ok(_) => Ok(()),
        Err(_) => Err(AllocError),
    }
}
