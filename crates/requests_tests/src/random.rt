// Numbers that look random, the same at each run.
ghost use Rattle.std.specs.Prelude.{◌<◌};

#[derive(Drop)]
pub(crate) struct Random {
    seed: u32,
}

impl Random {
    pub(crate) fn new(seed: u32) -> Random {
        Random { seed }
    }

    // A number below n.
    pub(crate) fn below(&mut self, n: u16) -> u16
        requires { 0 < n }
        ensures { result < n }
    {
        self.seed = self.seed.wrapping_mul(1103515245).wrapping_add(12345);
        ((self.seed >> 16) % u32::from(n)) as u16
    }

    // True once in n times.
    pub(crate) fn once_in(&mut self, n: u16) -> bool
        requires { 0 < n }
    {
        self.below(n) == 0
    }
}
