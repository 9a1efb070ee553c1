// Scripts of requests, what a session is to answer to each, and the exchanges that they are.
use crate::jobs::Job;
use crate::random::Random;
use crate::search::{Problem, holds};
use description::notice::Notice;
use description::part::Part;
use description::source::Source;
use requests::exchange::Exchange;
use requests::reply::Reply;
use requests::request::Request;
use std::alloc::{AllocError, Global};
use uses::fault::Fault;
use uses::verdict::Verdict;

// How many entries the arrays of a trace have, of which some are lent.
pub(crate) const ENTRIES: usize = 10;

#[derive(Clone, Copy, PartialEq, Eq, Debug)]
pub(crate) struct Arrays {
    pub(crate) states: [u16; ENTRIES],
    pub(crate) inputs: [u16; ENTRIES],
}

// What stands in arrays where nothing is written.
pub(crate) const UNWRITTEN: Arrays = Arrays {
    states: [77; ENTRIES],
    inputs: [88; ENTRIES],
};

const NOTHING: Source<'static> = Source {
    circuit: &[],
    assumption: &[],
    property: &[],
};

// A request: a load by the place of its job, a trace by the lengths of its arrays.
#[derive(Clone, Copy, PartialEq, Eq, Debug)]
pub(crate) enum Ask {
    Load(usize),
    Advance,
    Verdict,
    Trace { states: usize, inputs: usize },
    Inside(u16),
}

// A reply, by the notice where it is a refusal.
#[derive(Clone, Copy, PartialEq, Eq, Debug)]
pub(crate) enum Told {
    Load(Result<Verdict, Notice>),
    Advance(Result<Verdict, Notice>),
    Verdict(Verdict),
    Trace(Result<(), Notice>),
    Inside(Result<bool, Notice>),
}

pub(crate) fn told_of(reply: Reply) -> Told {
    match reply {
        Reply::Load(outcome) => Told::Load(outcome.map_err(Fault::notice)),
        Reply::Advance(outcome) => Told::Advance(outcome.map_err(Fault::notice)),
        Reply::Verdict(verdict) => Told::Verdict(verdict),
        Reply::Trace(outcome) => Told::Trace(outcome.map_err(Fault::notice)),
        Reply::Inside(outcome) => Told::Inside(outcome.map_err(Fault::notice)),
    }
}

#[derive(Drop)]
pub(crate) struct Script {
    pub(crate) jobs: Vec<Job>,
    pub(crate) asks: Vec<Ask>,
}

impl Script {
    // A few jobs, and requests in any order.
    pub(crate) fn new(random: &mut Random, heap: Global) -> Result<Script, AllocError> {
        let mut jobs = Vec::new(heap);
        jobs.push(Job::spoiled(random, heap)?)?;
        jobs.push(Job::new(random, heap)?)?;
        jobs.push(Job::new(random, heap)?)?;
        let mut asks = Vec::new(heap);
        for _ in 0..16 {
            asks.push(Ask::new(random))?;
        }
        Ok(Script { jobs, asks })
    }
}

impl Ask {
    fn new(random: &mut Random) -> Ask {
        match random.below(8) {
            0 | 1 => Ask::Load(usize::from(random.below(3))),
            2 | 3 | 4 => Ask::Advance,
            5 => Ask::Trace {
                states: usize::from(random.below(11)),
                inputs: usize::from(random.below(11)),
            },
            6 => Ask::Inside(random.below(10)),
            _ => Ask::Verdict,
        }
    }
}

// The files and the texts of jobs.
pub(crate) fn sources(jobs: &[Job], heap: Global) -> Result<Vec<Source<'_>>, AllocError> {
    let mut sources = Vec::new(heap);
    for job in jobs {
        sources.push(Source {
            circuit: &job.file,
            assumption: &job.assumption,
            property: &job.property,
        })?;
    }
    Ok(sources)
}

// The exchanges that are asked for, each with arrays of its own.
pub(crate) fn exchanges<'a>(
    asks: &[Ask],
    sources: &'a [Source<'_>],
    arrays: &'a mut [Arrays],
    heap: Global,
) -> Result<Vec<Exchange<'a>>, AllocError> {
    let mut list = Vec::new(heap);
    for (ask, arrays) in asks.iter().zip(arrays.iter_mut()) {
        list.push(Exchange {
            request: request(*ask, sources, arrays),
            reply: Reply::Inside(Ok(true)),
        })?;
    }
    Ok(list)
}

fn request<'a>(ask: Ask, sources: &'a [Source<'_>], arrays: &'a mut Arrays) -> Request<'a> {
    match ask {
        Ask::Load(place) => Request::Load(sources.get(place).map_or(NOTHING, lent)),
        Ask::Advance => Request::Advance,
        Ask::Verdict => Request::Verdict,
        Ask::Trace {
            states: state_count,
            inputs: input_count,
        } => {
            let Arrays { states, inputs } = arrays;
            Request::Trace {
                states: start(states, state_count),
                inputs: start(inputs, input_count),
            }
        }
        Ask::Inside(state) => Request::Inside(state),
    }
}

// For as long as the source itself is lent, which is as long as the arrays are.
fn lent<'a>(source: &'a Source<'_>) -> Source<'a> {
    Source {
        circuit: source.circuit,
        assumption: source.assumption,
        property: source.property,
    }
}

// The first numbers of an array, so many or all.
fn start(numbers: &mut [u16], count: usize) -> &mut [u16] {
    let count = count.min(numbers.len());
    numbers.split_at_mut(count).0
}

// A session as the rules have it, over no store: the sets of the search that is loaded, from the first on.
#[derive(Drop)]
pub(crate) struct Plain<'a> {
    problem: Option<&'a Problem>,
    sets: Vec<u32>,
}

// A refusal of a call as a whole.
fn refused(number: u8) -> Notice {
    Notice {
        number,
        part: Part::Call,
        place: 0,
    }
}

impl<'a> Plain<'a> {
    pub(crate) fn new(heap: Global) -> Plain<'a> {
        Plain {
            problem: None,
            sets: Vec::new(heap),
        }
    }

    fn verdict(&self) -> Verdict {
        self.problem
            .map_or(Verdict::Empty, |problem| problem.verdict(&self.sets))
    }

    // Whether a request is one that the store alone could refuse.
    pub(crate) fn accepts(&self, ask: Ask, jobs: &[Job]) -> bool {
        match ask {
            Ask::Load(place) => {
                self.problem.is_none() && jobs.get(place).is_some_and(|job| job.refusal.is_none())
            }
            Ask::Advance => self.verdict() == Verdict::Open,
            _ => false,
        }
    }

    // The answer to a request, for which the arrays are written over. A load of a job that is not there has none.
    pub(crate) fn answer(
        &mut self,
        ask: Ask,
        jobs: &'a [Job],
        arrays: &mut Arrays,
    ) -> Result<Option<Told>, AllocError> {
        Ok(Some(match ask {
            Ask::Load(place) => {
                let Some(job) = jobs.get(place) else {
                    return Ok(None);
                };
                Told::Load(self.load(job)?)
            }
            Ask::Advance => Told::Advance(self.advance()?),
            Ask::Verdict => Told::Verdict(self.verdict()),
            Ask::Trace { states, inputs } => Told::Trace(self.trace(states.min(inputs), arrays)),
            Ask::Inside(state) => Told::Inside(self.inside(state)),
        }))
    }

    fn load(&mut self, job: &'a Job) -> Result<Result<Verdict, Notice>, AllocError> {
        if self.problem.is_some() {
            return Ok(Err(refused(1)));
        }
        if let Some(notice) = job.refusal {
            return Ok(Err(notice));
        }
        self.sets.push(job.problem.first())?;
        self.problem = Some(&job.problem);
        Ok(Ok(self.verdict()))
    }

    fn advance(&mut self) -> Result<Result<Verdict, Notice>, AllocError> {
        let Some(problem) = self.problem else {
            return Ok(Err(refused(11)));
        };
        if self.verdict() != Verdict::Open {
            return Ok(Err(refused(12)));
        }
        let last = self.sets.last().copied().unwrap_or(0);
        self.sets.push(problem.grown(last))?;
        Ok(Ok(self.verdict()))
    }

    fn trace(&self, entries: usize, arrays: &mut Arrays) -> Result<(), Notice> {
        let problem = self.problem.ok_or(refused(11))?;
        let Verdict::Unsafe(_) = self.verdict() else {
            return Err(refused(13));
        };
        if entries < self.sets.len() {
            return Err(Notice {
                place: self.sets.len(),
                ..refused(14)
            });
        }
        problem.trace(&self.sets, &mut arrays.states, &mut arrays.inputs);
        Ok(())
    }

    fn inside(&self, state: u16) -> Result<bool, Notice> {
        let problem = self.problem.ok_or(refused(11))?;
        if self.verdict() != Verdict::Safe {
            return Err(refused(13));
        }
        if state >= problem.states() {
            return Err(refused(15));
        }
        Ok(self.sets.last().is_some_and(|&set| !holds(set, state)))
    }
}
