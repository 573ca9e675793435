//! Equations of a clause, each read in both directions.
ghost use Rattle.std.specs.Prelude.{◌≡◌, ◌∷◌, ◌++◌, map, IfOk, OnOk};
ghost use Rattle.std.specs.List.{flat_map};
ghost use Rattle.calculus.specs.Inferences.{readings};
ghost use Rattle.superposition.specs.Words.{plain};
ghost use Rattle.superposition.specs.Readings.{reading_of, AreJudged};

use crate::ordering::{Standing, standings};
use spl_terms::{Atom, Term};
use std::alloc::{AllocError, Global};

/// An equation that is read in one direction.
#[derive(Clone, Copy, Debug)]
pub(crate) struct Equation<'a> {
    /// Its place in the part, from 0.
    pub(crate) place: u32,
    /// Whether it is read from right to left.
    pub(crate) right: bool,
    /// The side that is read first.
    pub(crate) left_side: &'a Term,
    /// The other side.
    pub(crate) right_side: &'a Term,
    /// How the two sides stand.
    pub(crate) standing: Standing,
}

/// Adds both readings of an equation.
fn add_readings<'a>(
    place: u32,
    atom: &'a Atom,
    made: &mut Vec<Equation<'a>>,
) -> Result<(), AllocError>
    requires { AreJudged made.old.items }
    ensures readings { OnOk result (map reading_of made.new.items
        ≡ map reading_of made.old.items ++ readings (place, atom.now)) }
    ensures judged { OnOk result (AreJudged made.new.items) }
{
    if let Atom::Equal(left, right) = atom {
        let (forth, back) = standings(left, right);
        made.push(Equation {
            place,
            right: false,
            left_side: left,
            right_side: right,
            standing: forth,
        })?;
        made.push(Equation {
            place,
            right: true,
            left_side: right,
            right_side: left,
            standing: back,
        })?;
    }
    Ok(())
}

/// The equations among these atoms, each from left to right and then from right to left.
pub(crate) fn readings_of<'a>(
    alloc: Global,
    atoms: &[(u32, &'a Atom)],
) -> Result<Vec<Equation<'a>>, AllocError>
    ensures readings { IfOk result (λ made. map reading_of made.items ≡ flat_map readings (plain atoms.now)) }
    ensures judged { IfOk result (λ made. AreJudged made.items) }
{
    let mut made = Vec::new(alloc);
    for k in 0..atoms.len() {
        let (place, atom) = atoms[k];
        add_readings(place, atom, &mut made)?;
    }
    Ok(made)
}
