// The call that takes a circuit and its claims.
ghost use Rattle.std.specs.Prelude.{◌≡◌, true, is_err, None};
ghost use Rattle.uses.specs.Calls.{load};
ghost use Rattle.engine.specs.Keeping.{world, Next};
ghost use Rattle.engine.specs.Loading.{BeginsFrom};

use super::search::Search;
use super::session::Session;
use super::stage::{Stage, verdict_at};
use copy_list::CopyList;
use description::describe;
use description::source::Source;
use making::build;
use making::parts::Built;
use store::Store;
use uses::fault::Fault;
use uses::verdict::Verdict;

// The search that a load begins.
fn begin(built: Built) -> Search
    ensures { BeginsFrom built result }
{
    Search {
        parts: built.parts,
        earlier: CopyList::new(),
        last: Stage {
            set: built.set,
            verdict: verdict_at(0, built.met),
        },
    }
}

impl<S: Store> Session<S> {
    pub fn load(&mut self, source: Source) -> Result<Verdict, Fault>
        ensures next { Next (world S.Store.shows self.old) (load source.entry.circuit.now source.entry.assumption.now source.entry.property.now result) (world S.Store.shows self.new) }
        ensures refused { is_err result ≡ true → self.new.search ≡ self.old.search }
    {
        if self.search.is_some() {
            return Err(Fault::Loaded);
        }
        self.load_first(source)
    }

    // The same where nothing is loaded. Not inlined: its frame is large, and a refusal needs none.
    #[inline(never)]
    fn load_first(&mut self, source: Source) -> Result<Verdict, Fault>
        requires { self.old.search ≡ None }
        ensures next { Next
            (world S.Store.shows self.old)
            (load source.entry.circuit.now source.entry.assumption.now source.entry.property.now result)
            (world S.Store.shows self.new) }
        ensures refused { is_err result ≡ true → self.new.search ≡ self.old.search }
    {
        let width = self.store.figures().variables;
        let described = describe(source, width)?;
        let built = build(&mut self.store, &described)?;
        let search = begin(built);
        let verdict = search.last.verdict;
        self.search = Some(search);
        Ok(verdict)
    }
}
