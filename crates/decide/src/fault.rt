ghost use Rattle.std.specs.Prelude.{◌≡◌};
ghost use Rattle.decide.specs.declared.fault.Fault.TheVariants.{Frame as of_frame, Call as of_call};
ghost use Rattle.decide.specs.Faults.{notice_of};

use description::notice::Notice;
use job::fault::Fault as Unframed;
use uses::fault::Fault as Refusal;

// Why a job is refused.
#[derive(Clone, Copy, PartialEq, Eq, Debug)]
pub enum Fault {
    // The bytes are no job.
    Frame(Unframed),
    // A call of the session is refused.
    Call(Refusal),
}

// A conversion for each error, since each makes a case of its own; by hand, since a clause says which (`from_gives`),
// and a derive does not.
impl From<Unframed> for Fault {
    ghost from_gives = { λ e r. r ≡ of_frame e };

    fn from(unframed: Unframed) -> Fault {
        Fault::Frame(unframed)
    }
}

impl From<Refusal> for Fault {
    ghost from_gives = { λ e r. r ≡ of_call e };

    fn from(call: Refusal) -> Fault {
        Fault::Call(call)
    }
}

impl Fault {
    pub fn notice(self) -> Notice
        ensures { result ≡ notice_of self }
    {
        match self {
            Fault::Frame(fault) => fault.notice(),
            Fault::Call(fault) => fault.notice(),
        }
    }
}
