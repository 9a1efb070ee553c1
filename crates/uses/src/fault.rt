// Why a call of a session is refused, with its number, its part and its place.
ghost use Rattle.std.specs.Prelude.{◌≡◌};
ghost use Rattle.uses.specs.declared.fault.Fault.TheVariants.{Description as of_description, Making as of_making};
ghost use Rattle.uses.specs.Faults.{notice_of};

use description::fault::Fault as Misdescription;
use description::notice::Notice;
use making::fault::Fault as Unmade;

/// Why a call of a session was refused. The session is then as before.
#[derive(Clone, Copy, PartialEq, Eq, Debug)]
pub enum Fault {
    /// A circuit is loaded already.
    Loaded,
    /// The circuit file or a claim is at fault.
    Description(Misdescription),
    /// The store refused a call of the builder.
    Making(Unmade),
    /// Nothing is loaded.
    Empty,
    /// The verdict is no longer open.
    Settled,
    /// The verdict is another one.
    Verdict,
    /// An array has fewer entries than these.
    Short { needed: u16 },
    /// There is no such state.
    State,
}

// Each type of error has its own conversion, into its own case: one for all would take an enum of them, which is this
// one. By hand, since a clause says which case (`from_gives`), and a derive does not.
impl From<Misdescription> for Fault {
    ghost from_gives = { λ e r. r ≡ of_description e };

    fn from(misdescription: Misdescription) -> Fault {
        Fault::Description(misdescription)
    }
}

impl From<Unmade> for Fault {
    ghost from_gives = { λ e r. r ≡ of_making e };

    fn from(unmade: Unmade) -> Fault {
        Fault::Making(unmade)
    }
}

impl Fault {
    /// The number, the part and the place of the refusal.
    // The numbers are written out, since `as` takes no enum that holds values.
    pub fn notice(self) -> Notice
        ensures { result ≡ notice_of self }
    {
        match self {
            Fault::Loaded => Notice::of_call(1),
            Fault::Description(fault) => fault.notice(),
            Fault::Making(fault) => fault.notice(),
            Fault::Empty => Notice::of_call(11),
            Fault::Settled => Notice::of_call(12),
            Fault::Verdict => Notice::of_call(13),
            Fault::Short { needed } => Notice {
                place: usize::from(needed),
                ..Notice::of_call(14)
            },
            Fault::State => Notice::of_call(15),
        }
    }
}
