// Stores that have no room for a whole session.
use crate::makes::{Seen, agrees, layer, replies, two_layers};
use crate::random::Random;
use crate::scripts::{Arrays, Ask, Script, UNWRITTEN};
use crate::turns::{DELAY, FOLLOW};
use description::part::Part;
use description::source::Source;
use diagram::Diagram;
use making::fault::Fault as Unmade;
use nodes::Node;
use requests::reply::Reply;
use std::alloc::Global;
use std::process::Abort;
use std::test::Fail;
use store::Store;
use table::Table;
use table::truths::Truths;
use uses::fault::Fault;
use uses::verdict::Verdict;

// A load that is refused for room, the same load again, and a smaller one, then an advance and the trace.
const ASKS: [Ask; 5] = [
    Ask::Load(0),
    Ask::Load(0),
    Ask::Load(1),
    Ask::Advance,
    Ask::Trace {
        states: 2,
        inputs: 2,
    },
];

// A part and a place there.
type Place = (Part, u16);

// A refusal with no unit free.
fn refusal(place: Place) -> Fault {
    let (part, place) = place;
    Fault::Making(Unmade::Room {
        part,
        place,
        free: 0,
    })
}

// The replies and the arrays where the first load is refused in one place, and the second in another or nowhere.
fn wanted(first: Place, second: Option<Place>) -> [(Reply, Arrays); 5] {
    let refused = (Reply::Load(Err(refusal(first))), UNWRITTEN);
    let Some(second) = second else {
        let mut arrays = UNWRITTEN;
        arrays.states[0] = 0;
        arrays.states[1] = 1;
        arrays.inputs[0] = 1;
        arrays.inputs[1] = 0;
        return [
            refused,
            refused,
            (Reply::Load(Ok(Verdict::Open)), UNWRITTEN),
            (Reply::Advance(Ok(Verdict::Unsafe(1))), UNWRITTEN),
            (Reply::Trace(Ok(())), arrays),
        ];
    };
    [
        refused,
        refused,
        (Reply::Load(Err(refusal(second))), UNWRITTEN),
        (Reply::Advance(Err(Fault::Empty)), UNWRITTEN),
        (Reply::Trace(Err(Fault::Empty)), UNWRITTEN),
    ]
}

fn loads_again<S: Store + Drop>(
    rt: &impl Abort,
    store: S,
    wanted: &[(Reply, Arrays); 5],
    heap: Global,
) -> Result<(), Fail> {
    let sources = [
        Source {
            circuit: &DELAY,
            assumption: b"s0 | v0",
            property: b"!(s1 & v0)",
        },
        Source {
            circuit: &FOLLOW,
            assumption: b"1",
            property: b"!s0",
        },
    ];
    let (_store, replies) = replies(&ASKS, &sources, store, heap)?;
    assert_eq!(rt; replies.len(), wanted.len());
    for (reply, wanted) in replies.iter().zip(wanted.iter()) {
        assert_eq!(rt; *reply, *wanted);
    }
    Ok(())
}

// With 12 records and 13 the refused load has made every function that the smaller circuit wants, which is then loaded
// with no unit free.
#[test]
fn loads_after_room(rt: HostRuntime) -> Result<(), Fail> {
    let heap = rt.alloc();
    let mut tables = [Truths::default(); 14];
    let table = [
        (4, (Part::Circuit, 0), Some((Part::Circuit, 1))),
        (7, (Part::Circuit, 2), Some((Part::Sets, 0))),
        (8, (Part::Assumption, 3), Some((Part::Sets, 0))),
        (9, (Part::Property, 5), Some((Part::Sets, 0))),
        (10, (Part::Property, 0), Some((Part::Sets, 0))),
        (11, (Part::Sets, 0), Some((Part::Sets, 0))),
        (12, (Part::Sets, 0), None),
        (13, (Part::Sets, 0), None),
    ];
    for (records, first, second) in table {
        let wanted = wanted(first, second);
        let store = Table::new(10, &mut tables[0..records], &mut []);
        loads_again(&rt, store, &wanted, heap)?;
        let store = layer(Table::new(10, &mut tables[0..records], &mut []));
        loads_again(&rt, store, &wanted, heap)?;
        let store = two_layers(Table::new(10, &mut tables[0..records], &mut []));
        loads_again(&rt, store, &wanted, heap)?;
    }
    Ok(())
}

// The register takes over `!(s0 & v0)`, and there is a second input. The first gate is `s0 & v0`.
const NAND: [u8; 18] = [1, 0, 2, 0, 3, 0, 2, 0, 9, 0, 3, 0, 4, 0, 9, 0, 3, 0];

fn load(part: Part, place: u16, free: u32) -> Reply {
    Reply::Load(Err(Fault::Making(Unmade::Room { part, place, free })))
}

fn advance(free: u32) -> Reply {
    Reply::Advance(Err(Fault::Making(Unmade::Room {
        part: Part::Sets,
        place: 0,
        free,
    })))
}

// Two loads of the circuit and two advances: what is refused is refused again, with as many units free.
fn stops<S: Store + Drop>(
    rt: &impl Abort,
    store: S,
    texts: [&[u8]; 2],
    refusal: Reply,
    heap: Global,
) -> Result<(), Fail> {
    let source = Source {
        circuit: &NAND,
        assumption: texts[0],
        property: texts[1],
    };
    let asks = [Ask::Load(0), Ask::Load(0), Ask::Advance, Ask::Advance];
    let empty = Reply::Advance(Err(Fault::Empty));
    let wanted = if matches!(refusal, Reply::Load(_)) {
        [refusal, refusal, empty, empty]
    } else {
        let loaded = Reply::Load(Ok(Verdict::Open));
        [loaded, Reply::Load(Err(Fault::Loaded)), refusal, refusal]
    };
    let (_store, replies) = replies(&asks, &[source], store, heap)?;
    assert_eq!(rt; replies.len(), wanted.len());
    for ((reply, _), wanted) in replies.iter().zip(wanted.iter()) {
        assert_eq!(rt; *reply, *wanted);
    }
    Ok(())
}

// Register, copy and inputs are variables 0 to 3, from the top. A price counts the functions that are new among the
// result and what comes of it by fixing variables from the top. The variables are 1 unit each and `s0 & v0` is 1. Its
// negation is 2, since `!v0` comes of it where s0 is true, and `!s0` is 1: the gates end with 8 units used.
// - `v0 & v1` is then 1, and its negation 2, with `!v1`, be it of the assumption, the property or the first set.
// - `s0 & v0 & v1` is 2, with `v0 & v1`, and its negation 3, with `!(v0 & v1)` and `!v1`: 10 used, then 13.
// - With `v1` and `!s0` the load makes `s0 & v1` and the negation of the copy, 1 each: 10 used. The advance comes to
//   the register's next value, which is held, and its and with `v1` is 2, with `!v0 & v1`.
//
// Under the layer v0 is on top, then the copy, v1 and s0. The negation of `s0 & v0` is 2 with `!s0`, which is the last
// gate: 7 used. All else is as above, but that of `!(s0 & v0) & v1` comes `!s0 & v1` where v0 is true.
#[test]
fn free_units_pass_up(rt: HostRuntime) -> Result<(), Fail> {
    let mut nodes = [Node::default(); 12];
    let table: [(usize, usize, [&[u8]; 2], Reply); 5] = [
        (6, 6, [b"1", b"1"], load(Part::Circuit, 1, 1)),
        (10, 9, [b"!(v0 & v1)", b"1"], load(Part::Assumption, 0, 1)),
        (10, 9, [b"1", b"!(v0 & v1)"], load(Part::Property, 0, 1)),
        (10, 9, [b"1", b"v0 & v1"], load(Part::Sets, 0, 1)),
        (11, 10, [b"v1", b"!s0"], advance(1)),
    ];
    for (plain, layered, texts, refusal) in table {
        let store = Diagram::new(10, &mut nodes[0..plain], &mut []);
        stops(&rt, store, texts, refusal, rt.alloc())?;
        let store = layer(Diagram::new(10, &mut nodes[0..layered], &mut []));
        stops(&rt, store, texts, refusal, rt.alloc())?;
    }
    let store = Diagram::new(10, &mut nodes, &mut []);
    let refusal = load(Part::Property, 0, 2);
    stops(&rt, store, [b"1", b"!(s0 & v0 & v1)"], refusal, rt.alloc())
}

// Each request of a script twice, so that a call that is refused for room is made again.
fn twice(script: Script, heap: Global) -> Result<Script, Fail> {
    let Script { jobs, asks } = script;
    let mut doubled = Vec::new(heap);
    for ask in asks.iter() {
        doubled.push(*ask)?;
        doubled.push(*ask)?;
    }
    Ok(Script {
        jobs,
        asks: doubled,
    })
}

// In a table each new function is one unit in every order, so that its room ends at the same call under any layers.
#[test]
fn small_stores(rt: HostRuntime) -> Result<(), Fail> {
    let heap = rt.alloc();
    let mut random = Random::new(2);
    let mut seen = Seen::default();
    let mut nodes = [Node::default(); 100];
    let mut tables = [Truths::default(); 50];
    let mut links = [0; 60];
    for _ in 0..1000 {
        let script = twice(Script::new(&mut random, heap)?, heap)?;
        let few = usize::from(random.below(51));
        let more = usize::from(random.below(101));
        let store = Diagram::new(10, &mut nodes[0..more], &mut links);
        agrees(&rt, &script, store, &mut seen, heap)?;
        let store = Table::new(10, &mut tables[0..few], &mut links);
        let (_, of_table) = agrees(&rt, &script, store, &mut seen, heap)?;
        let store = layer(Diagram::new(10, &mut nodes[0..more], &mut links));
        agrees(&rt, &script, store, &mut seen, heap)?;
        let store = layer(Table::new(10, &mut tables[0..few], &mut links));
        let (_, of_layer) = agrees(&rt, &script, store, &mut seen, heap)?;
        assert_eq!(rt; of_layer, of_table);
        let store = two_layers(Diagram::new(10, &mut nodes[0..more], &mut links));
        agrees(&rt, &script, store, &mut seen, heap)?;
        let store = two_layers(Table::new(10, &mut tables[0..few], &mut links));
        let (_, of_layers) = agrees(&rt, &script, store, &mut seen, heap)?;
        assert_eq!(rt; of_layers, of_table);
    }
    assert!(rt;
        seen.rooms.min(seen.same_rooms) > 100 && seen.loads_after_room > 0,
        "{seen:?}"
    );
    Ok(())
}
