// Tests over the whole, in tables, and what is known of makes and layers together.
#![tactic(auto)]

ghost use Rattle.std.specs.Prelude.{◌≡◌, ℕ, ◌≤◌, [], ◌∷◌};
ghost use Rattle.nodes.specs.Facts.{pairs};
ghost use Rattle.nodes.specs.Shows.{shown};
ghost use Rattle.order.specs.Renaming.{ordered};
ghost use Rattle.store.specs.Meaning.{price};

#[cfg(test)]
mod circuits;
#[cfg(test)]
mod full;
#[cfg(test)]
mod jobs;
#[cfg(test)]
mod reports;
#[cfg(test)]
mod sessions;
#[cfg(test)]
mod stores;

// The price of (a = b) and (c = d), of variables 0 to 3, in an empty diagram store under a layer that puts c second.
pub fn reordered_pairs_price() -> u32
    ensures { (capacity : ℕ) → capacity ≤ 65534 → price (ordered (0 ∷ 2 ∷ 1 ∷ 3 ∷ []) (shown 4 [] capacity)) (pairs 0 1 2 3) ≡ result }
{
    9
}
