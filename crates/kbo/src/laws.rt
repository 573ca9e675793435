//! The law that the order is stable.
ghost use Rattle.kbo.specs.Stability.{IsStable};

/// The law that a term that is greater than another one is so under each substitution (Weidenbach 2001, the section on
/// orderings).
pub fn order_is_stable()
    ensures { IsStable }
{}
