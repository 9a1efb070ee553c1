// Single bits of a word.
ghost use Rattle.std.specs.Prelude.{◌≡◌, ◌<◌, ◌≤◌};
ghost use Rattle.store.specs.Fun.{bit, fixed};

// Bit i of w; false past bit 31.
pub fn bit(w: u32, i: u8) -> bool
    ensures { result ≡ bit i w }
{
    i < 32 && (w >> i) % 2 == 1
}

// w with its bit i set to t; w itself past bit 31.
pub fn with_bit(w: u32, i: u8, t: bool) -> u32
    ensures within { i < 32 → result ≡ fixed i t w }
    ensures past { 32 ≤ i → result ≡ w }
{
    if i >= 32 {
        return w;
    }
    let cleared = w & !(1 << i);
    cleared | u32::from(t) << i
}
