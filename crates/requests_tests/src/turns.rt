// Each call in each state of a session, with the answers that the rules have for it.
use crate::makes::{layer, replies, two_layers};
use crate::scripts::{Ask, Told, UNWRITTEN, told_of};
use description::notice::Notice;
use description::part::Part;
use description::source::Source;
use diagram::Diagram;
use nodes::Node;
use std::alloc::Global;
use std::process::Abort;
use std::test::Fail;
use store::Store;
use table::Table;
use table::truths::Truths;
use uses::verdict::Verdict;

// One register that takes over the input.
pub(crate) const FOLLOW: [u8; 14] = [1, 0, 1, 0, 2, 0, 4, 0, 3, 0, 4, 0, 3, 0];

// Two registers that change places.
const SWAP: [u8; 18] = [2, 0, 0, 0, 3, 0, 4, 0, 2, 0, 2, 0, 4, 0, 2, 0, 5, 0];

// Two registers: the first takes over the input, and the second the first.
pub(crate) const DELAY: [u8; 18] = [2, 0, 1, 0, 3, 0, 6, 0, 2, 0, 3, 0, 6, 0, 2, 0, 5, 0];

// Nine registers.
const TOO_MANY: [u8; 6] = [9, 0, 0, 0, 10, 0];

const UNSAFE: usize = 0;

const SAFE: usize = 1;

const UNSAFE_AT_ONCE: usize = 2;

const NO_CLAIM: usize = 3;

const SWAPPING: usize = 4;

const NO_CIRCUIT: usize = 5;

fn source<'a>(circuit: &'a [u8], assumption: &'a [u8], property: &'a [u8]) -> Source<'a> {
    Source {
        circuit,
        assumption,
        property,
    }
}

const ALL: Ask = Ask::Trace {
    states: 10,
    inputs: 10,
};

// The refusals of a call as a whole.
const LOADED: Notice = Notice {
    number: 1,
    part: Part::Call,
    place: 0,
};

const EMPTY: Notice = Notice {
    number: 11,
    part: Part::Call,
    place: 0,
};

const SETTLED: Notice = Notice {
    number: 12,
    part: Part::Call,
    place: 0,
};

const VERDICT: Notice = Notice {
    number: 13,
    part: Part::Call,
    place: 0,
};

const STATE: Notice = Notice {
    number: 15,
    part: Part::Call,
    place: 0,
};

// Where a step is not written.
const NONE: [[u16; 2]; 2] = [[77, 88]; 2];

// A request, its answer, and the first two steps that stand in its arrays.
type Turn = (Ask, Told, [[u16; 2]; 2]);

const UNSAFE_TURNS: [Turn; 23] = [
    // Nothing is loaded.
    (Ask::Advance, Told::Advance(Err(EMPTY)), NONE),
    (ALL, Told::Trace(Err(EMPTY)), NONE),
    (Ask::Inside(0), Told::Inside(Err(EMPTY)), NONE),
    (Ask::Verdict, Told::Verdict(Verdict::Empty), NONE),
    (
        Ask::Load(NO_CLAIM),
        Told::Load(Err(Notice {
            number: 7,
            part: Part::Assumption,
            place: 3,
        })),
        NONE,
    ),
    (
        Ask::Load(NO_CIRCUIT),
        Told::Load(Err(Notice {
            number: 3,
            part: Part::Circuit,
            place: 0,
        })),
        NONE,
    ),
    (Ask::Verdict, Told::Verdict(Verdict::Empty), NONE),
    (Ask::Load(UNSAFE), Told::Load(Ok(Verdict::Open)), NONE),
    // The verdict is open.
    (Ask::Load(SAFE), Told::Load(Err(LOADED)), NONE),
    (Ask::Load(NO_CLAIM), Told::Load(Err(LOADED)), NONE),
    (ALL, Told::Trace(Err(VERDICT)), NONE),
    (Ask::Inside(0), Told::Inside(Err(VERDICT)), NONE),
    (Ask::Inside(9), Told::Inside(Err(VERDICT)), NONE),
    (Ask::Verdict, Told::Verdict(Verdict::Open), NONE),
    (Ask::Advance, Told::Advance(Ok(Verdict::Unsafe(1))), NONE),
    // It is unsafe.
    (Ask::Load(SAFE), Told::Load(Err(LOADED)), NONE),
    (Ask::Advance, Told::Advance(Err(SETTLED)), NONE),
    (Ask::Inside(0), Told::Inside(Err(VERDICT)), NONE),
    (Ask::Verdict, Told::Verdict(Verdict::Unsafe(1)), NONE),
    (
        Ask::Trace {
            states: 1,
            inputs: 10,
        },
        Told::Trace(Err(Notice {
            number: 14,
            part: Part::Call,
            place: 2,
        })),
        NONE,
    ),
    (
        Ask::Trace {
            states: 10,
            inputs: 1,
        },
        Told::Trace(Err(Notice {
            number: 14,
            part: Part::Call,
            place: 2,
        })),
        NONE,
    ),
    (
        Ask::Trace {
            states: 2,
            inputs: 2,
        },
        Told::Trace(Ok(())),
        [[0, 1], [1, 0]],
    ),
    (ALL, Told::Trace(Ok(())), [[0, 1], [1, 0]]),
];

const SAFE_TURNS: [Turn; 10] = [
    (Ask::Load(SAFE), Told::Load(Ok(Verdict::Open)), NONE),
    (Ask::Advance, Told::Advance(Ok(Verdict::Safe)), NONE),
    (Ask::Load(UNSAFE), Told::Load(Err(LOADED)), NONE),
    (Ask::Advance, Told::Advance(Err(SETTLED)), NONE),
    (ALL, Told::Trace(Err(VERDICT)), NONE),
    (Ask::Verdict, Told::Verdict(Verdict::Safe), NONE),
    (Ask::Inside(0), Told::Inside(Ok(true)), NONE),
    (Ask::Inside(1), Told::Inside(Ok(false)), NONE),
    (Ask::Inside(2), Told::Inside(Err(STATE)), NONE),
    (Ask::Inside(65535), Told::Inside(Err(STATE)), NONE),
];

const UNSAFE_AT_ONCE_TURNS: [Turn; 5] = [
    (
        Ask::Load(UNSAFE_AT_ONCE),
        Told::Load(Ok(Verdict::Unsafe(0))),
        NONE,
    ),
    (Ask::Advance, Told::Advance(Err(SETTLED)), NONE),
    (Ask::Inside(0), Told::Inside(Err(VERDICT)), NONE),
    (
        Ask::Trace {
            states: 0,
            inputs: 10,
        },
        Told::Trace(Err(Notice {
            number: 14,
            part: Part::Call,
            place: 1,
        })),
        NONE,
    ),
    (
        Ask::Trace {
            states: 1,
            inputs: 1,
        },
        Told::Trace(Ok(())),
        [[0, 0], [77, 88]],
    ),
];

const SWAPPING_TURNS: [Turn; 7] = [
    (Ask::Load(SWAPPING), Told::Load(Ok(Verdict::Open)), NONE),
    (Ask::Advance, Told::Advance(Ok(Verdict::Safe)), NONE),
    (Ask::Inside(0), Told::Inside(Ok(true)), NONE),
    (Ask::Inside(1), Told::Inside(Ok(true)), NONE),
    (Ask::Inside(2), Told::Inside(Ok(true)), NONE),
    (Ask::Inside(3), Told::Inside(Ok(false)), NONE),
    (Ask::Inside(4), Told::Inside(Err(STATE)), NONE),
];

fn turns<S: Store + Drop>(
    rt: &impl Abort,
    turns: &[Turn],
    store: S,
    heap: Global,
) -> Result<S, Fail> {
    let sources = [
        source(&FOLLOW, b"1", b"!s0"),
        source(&FOLLOW, b"!v0", b"!s0"),
        source(&FOLLOW, b"1", b"s0"),
        source(&FOLLOW, b"s0 s9", b""),
        source(&SWAP, b"1", b"!s0 | !s1"),
        source(&TOO_MANY, b"", b""),
    ];
    let mut asks = Vec::new(heap);
    for (ask, _, _) in turns {
        asks.push(*ask)?;
    }
    let (store, replies) = replies(&asks, &sources, store, heap)?;
    for ((ask, told, steps), (reply, arrays)) in turns.iter().zip(replies.iter()) {
        let mut wanted = UNWRITTEN;
        for (t, step) in steps.iter().enumerate() {
            wanted.states[t] = step[0];
            wanted.inputs[t] = step[1];
        }
        assert_eq!(rt; told_of(*reply), *told, "{ask:?}");
        assert_eq!(rt; *arrays, wanted, "{ask:?}");
    }
    Ok(store)
}

// One session after another, over one store.
fn each<S: Store + Drop>(rt: &impl Abort, store: S, heap: Global) -> Result<(), Fail> {
    let store = turns(rt, &UNSAFE_TURNS, store, heap)?;
    let store = turns(rt, &SAFE_TURNS, store, heap)?;
    let store = turns(rt, &UNSAFE_AT_ONCE_TURNS, store, heap)?;
    turns(rt, &SWAPPING_TURNS, store, heap)?;
    Ok(())
}

#[test]
fn calls_in_every_state(rt: HostRuntime) -> Result<(), Fail> {
    let heap = rt.alloc();
    let mut nodes = [Node::default(); 100];
    let mut tables = [Truths::default(); 60];
    let mut links = [0; 100];
    each(&rt, Diagram::new(10, &mut nodes, &mut links), heap)?;
    each(&rt, Table::new(10, &mut tables, &mut links), heap)?;
    each(&rt, layer(Diagram::new(10, &mut nodes, &mut links)), heap)?;
    each(&rt, layer(Table::new(10, &mut tables, &mut links)), heap)?;
    each(
        &rt,
        two_layers(Diagram::new(10, &mut nodes, &mut links)),
        heap,
    )?;
    each(
        &rt,
        two_layers(Table::new(10, &mut tables, &mut links)),
        heap,
    )
}
