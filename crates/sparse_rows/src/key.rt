//! What a pair stands at: a column, or the number of a relation.
ghost use Rattle.std.specs.Prelude.{◌≡◌, ℕ};

/// A key of a sparse row.
pub trait Key: Copy {
    /// The number that the key stands for.
    ghost number: { Self → ℕ };

    /// The number that the key stands for.
    fn number(self) -> u32
        ensures { result ≡ number self };

    /// Keys of equal numbers are equal.
    ghost number_injective: { (a b : Self) → number a ≡ number b → a ≡ b };
}

impl Key for u16 {
    ghost number = { λ key. key };

    ghost number_injective = { λ a b same. same };

    fn number(self) -> u32 {
        self as u32
    }
}

impl Key for u32 {
    ghost number = { λ key. key };

    ghost number_injective = { λ a b same. same };

    fn number(self) -> u32 {
        self
    }
}
