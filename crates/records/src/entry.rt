// A kind of entry that can tell equality: by `Eq`, its `==` is an equivalence, and equal entries need not be identical.
// No `Copy`: what is looked up is dropped where an equal entry stands, or no room is left.
ghost use Rattle.std.specs.Prelude.{◌≡◌, ℕ, true};

/// A kind of entry that a list can hold. Its `==` says which entry is found for another.
pub trait Entry: Eq + Drop {
    ghost hashed: { Self → ℕ } = { λ _. 0 };

    /// By which the entry is found faster: it serves well where unequal entries seldom agree in its last 14 bits.
    /// A kind that has none answers 0.
    // No body says so here: it would be proved for every `hashed`.
    // No `Hash` of the library: a hasher to take it would say the same in more lines.
    fn hash(&self) -> u16
        ensures { result ≡ hashed self.now };

    ghost agrees: { (a b : Self) → Self.eq a b ≡ true → hashed a ≡ hashed b };
}
