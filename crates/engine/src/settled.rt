ghost use Rattle.std.specs.Prelude.{◌≤◌};
ghost use Rattle.engine.specs.declared.search.TheConstants.{MOST_ADVANCES};

/// How many advances a search has made.
#[derive(Clone, Copy)]
pub struct Depth {
    pub advances: u16,
    ghost few: { advances ≤ MOST_ADVANCES },
}

/// What a search has settled on, and at which depth.
#[derive(Clone, Copy)]
pub enum Settled {
    Safe(Depth),
    Unsafe(Depth),
}
