//! Values that stand for a list of entries.
ghost use Rattle.std.specs.Prelude.{◌≡◌, ℕ, List, length};

/// A value that stands for a list of entries, each of which names its seat, and that has a setting, plain data that no turn changes.
///
/// The list, the seat of an entry and the setting exist for proofs alone. A type may have an invariant of its own: it goes through the cell with the value.
pub trait Told {
    /// An entry of the list.
    type Entry;

    /// What no turn changes.
    type Setting;

    /// The list for which the value stands.
    ghost told: { Self → List Self.Entry };

    /// The number of the seat that made an entry.
    ghost seat_of: { Self.Entry → ℕ };

    /// The value's setting.
    ghost setting: { Self → Self.Setting };

    /// How many entries the list has.
    fn count(&self) -> u64
        ensures { result ≡ length (told self.now) };
}
