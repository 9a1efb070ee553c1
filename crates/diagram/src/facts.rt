// What is known of the prices in a diagram store.
ghost use Rattle.std.specs.Prelude.{◌≡◌, ℕ};
ghost use Rattle.nodes.specs.Facts.{pairs_price, FairPrices};

// The price of (a = b) and (c = d) in an empty store, with the variables in the order a, b, c, d.
pub fn pairs_price() -> u32
    ensures { (capacity : ℕ) → pairs_price capacity ≡ result }
{
    6
}

// No price exceeds the top price, and a price is 0 exactly if the function is held.
pub fn prices_are_fair()
    ensures { FairPrices }
{}
