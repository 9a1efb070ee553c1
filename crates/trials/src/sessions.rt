// Sessions over every make of store and layers over them.
use description::notice::Notice;
use description::part::Part;
use description::source::Source;
use diagram::Diagram;
use engine::session::Session;
use engine::settled::Settled;
use engine::step::Step;
use making::fault::Fault as Unmade;
use nodes::Node;
use order::Layer;
use std::array;
use std::process::Abort;
use std::test::Fail;
use store::Store;
use table::Table;
use table::truths::Truths;
use uses::fault::Fault;
use uses::verdict::Verdict;

const ORDER: [u8; 10] = [9, 3, 0, 7, 1, 8, 2, 6, 5, 4];

// One register that takes over the input.
const FOLLOW: [u8; 14] = [1, 0, 1, 0, 2, 0, 4, 0, 3, 0, 4, 0, 3, 0];

// Two registers that change places.
const SWAP: [u8; 18] = [2, 0, 0, 0, 3, 0, 4, 0, 2, 0, 2, 0, 4, 0, 2, 0, 5, 0];

// Two registers: the first takes over the input, and the second the first.
const DELAY: [u8; 18] = [2, 0, 1, 0, 3, 0, 6, 0, 2, 0, 3, 0, 6, 0, 2, 0, 5, 0];

fn source<'a>(circuit: &'a [u8], assumption: &'a [u8], property: &'a [u8]) -> Source<'a> {
    Source {
        circuit,
        assumption,
        property,
    }
}

// What is told of a search: how many advances, and the verdict with its depth and the trace, or a bit for each state inside.
#[derive(Clone, Copy, PartialEq, Eq, Debug)]
enum Told {
    Unsafe {
        advances: u16,
        verdict: Verdict,
        steps: [Step; 4],
    },
    Safe {
        advances: u16,
        inside: u16,
    },
}

// What a trace leaves past its end.
const UNWRITTEN: Step = Step { state: 7, input: 7 };

fn step(state: u16, input: u16) -> Step {
    Step { state, input }
}

// The steps of the trace, as they lie in two longer arrays.
fn steps<S: Store>(session: &mut Session<S>) -> Result<[Step; 4], Fault> {
    let mut states = [UNWRITTEN.state; 4];
    let mut inputs = [UNWRITTEN.input; 4];
    session.trace(&mut states, &mut inputs)?;
    Ok(array::from_fn(|t| step(states[t], inputs[t])))
}

fn search<S: Store + Drop>(store: S, source: Source) -> Result<Told, Fault> {
    let mut session = Session::new(store);
    session.load(source)?;
    match session.settle()? {
        Settled::Unsafe(depth) => Ok(Told::Unsafe {
            advances: depth.advances,
            verdict: session.verdict(),
            steps: steps(&mut session)?,
        }),
        Settled::Safe(depth) => {
            let mut inside = 0;
            for q in 0..4 {
                inside |= u16::from(session.inside(q).unwrap_or(false)) << q;
            }
            Ok(Told::Safe {
                advances: depth.advances,
                inside,
            })
        }
    }
}

// Whether a search in each store comes to this.
fn agree(rt: &impl Abort, source: Source, told: Told) -> Result<(), Fail> {
    let mut nodes = [Node::default(); 300];
    let mut tables = [Truths::default(); 100];
    let mut links = [0; 300];
    assert_eq!(rt;
        search(Diagram::new(10, &mut nodes, &mut links), source)?,
        told
    );
    assert_eq!(rt;
        search(Table::new(10, &mut tables, &mut links), source)?,
        told
    );
    assert_eq!(rt;
        search(
            Layer::new(Diagram::new(10, &mut nodes, &mut links), &ORDER),
            source
        )?,
        told
    );
    assert_eq!(rt;
        search(
            Layer::new(Table::new(10, &mut tables, &mut []), &ORDER),
            source
        )?,
        told
    );
    Ok(())
}

fn unsafe_at(depth: u16, steps: [Step; 4]) -> Told {
    Told::Unsafe {
        advances: depth,
        verdict: Verdict::Unsafe(depth),
        steps,
    }
}

fn safe_at(advances: u16, inside: u16) -> Told {
    Told::Safe { advances, inside }
}

#[test]
fn stores_agree(rt: HostRuntime) -> Result<(), Fail> {
    agree(
        &rt,
        source(&FOLLOW, b"1", b"!s0"),
        unsafe_at(1, [step(0, 1), step(1, 0), UNWRITTEN, UNWRITTEN]),
    )?;
    agree(&rt, source(&FOLLOW, b"!v0", b"!s0"), safe_at(1, 1))?;
    agree(
        &rt,
        source(&FOLLOW, b"1", b"s0"),
        unsafe_at(0, [step(0, 0), UNWRITTEN, UNWRITTEN, UNWRITTEN]),
    )?;
    agree(&rt, source(&SWAP, b"1", b"!s0 | !s1"), safe_at(1, 7))?;
    agree(
        &rt,
        source(&DELAY, b"1", b"!s1"),
        unsafe_at(2, [step(0, 1), step(1, 0), step(2, 0), UNWRITTEN]),
    )
}

// What is told of the fault that a search is refused for.
fn refusal<S: Store + Drop>(store: S, source: Source) -> Option<Notice> {
    search(store, source).err().map(Fault::notice)
}

// Each function that is new takes one of the table's records, so that each of them is refused in its turn.
#[test]
fn room_in_every_part(rt: HostRuntime) -> Result<(), Fail> {
    let source = source(&DELAY, b"s0 | v0", b"!(s1 & v0)");
    let table = [
        (0..5, Part::Circuit, 0),
        (5..8, Part::Circuit, 2),
        (8..9, Part::Assumption, 3),
        (9..10, Part::Property, 5),
        (10..11, Part::Property, 0),
        (11..19, Part::Sets, 0),
        (19..24, Part::Sets, 1),
    ];
    for (counts, part, place) in table {
        for records in counts {
            let mut tables = vec![in rt.alloc(); Truths::default(); records]?;
            assert_eq!(rt;
                refusal(Table::new(10, &mut tables, &mut []), source),
                Some(Notice {
                    number: 10,
                    part,
                    place,
                })
            );
        }
    }
    let mut tables = [Truths::default(); 24];
    assert_eq!(rt; refusal(Table::new(10, &mut tables, &mut []), source), None);
    Ok(())
}

// What a settle answers, as the verdict and the advances.
fn settled<S: Store>(session: &mut Session<S>) -> Result<(Verdict, u16), Fault> {
    Ok(match session.settle()? {
        Settled::Safe(depth) => (Verdict::Safe, depth.advances),
        Settled::Unsafe(depth) => (Verdict::Unsafe(depth.advances), depth.advances),
    })
}

// A session that made some of its advances, or all of them, is settled, and once more: the same is told each time.
fn settles<S: Store + Drop>(
    rt: &impl Abort,
    mut store: S,
    source: Source,
    last: (Verdict, u16),
) -> Result<(), Fail> {
    let (verdict, total) = last;
    for made in 0..total.wrapping_add(1) {
        let mut session = Session::new(&mut store);
        assert_eq!(rt; settled(&mut session), Err(Fault::Empty));
        let mut told = session.load(source)?;
        for _ in 0..made {
            assert_eq!(rt; told, Verdict::Open);
            told = session.advance()?;
        }
        assert_eq!(rt; told == verdict, made == total);
        assert_eq!(rt; settled(&mut session), Ok(last));
        assert_eq!(rt; settled(&mut session), Ok(last));
        assert_eq!(rt; session.verdict(), verdict);
    }
    Ok(())
}

// With `!v0` the delay is safe after two advances: the sets are 2 and 3, then 1 too, which is the last state that is
// led there, and the same again.
#[test]
fn settles_after_advances(rt: HostRuntime) -> Result<(), Fail> {
    let mut nodes = [Node::default(); 100];
    let mut tables = [Truths::default(); 50];
    let table = [
        (source(&DELAY, b"1", b"!s1"), (Verdict::Unsafe(2), 2)),
        (source(&DELAY, b"!v0", b"!s1"), (Verdict::Safe, 2)),
        (source(&FOLLOW, b"!v0", b"!s0"), (Verdict::Safe, 1)),
        (source(&FOLLOW, b"1", b"s0"), (Verdict::Unsafe(0), 0)),
        (source(&SWAP, b"1", b"!s0 | !s1"), (Verdict::Safe, 1)),
    ];
    for (source, last) in table {
        settles(&rt, Diagram::new(10, &mut nodes, &mut []), source, last)?;
        settles(&rt, Table::new(10, &mut tables, &mut []), source, last)?;
    }
    Ok(())
}

// The delay's load wants 14 records, the first advance 5 more, and the second 5.
#[test]
fn settles_as_far_as_there_is_room(rt: HostRuntime) -> Result<(), Fail> {
    let mut tables = [Truths::default(); 23];
    let source = source(&DELAY, b"s0 | v0", b"!(s1 & v0)");
    for (records, place) in [(14, 0), (18, 0), (19, 1), (23, 1)] {
        let refusal = Fault::Making(Unmade::Room {
            part: Part::Sets,
            place,
            free: 0,
        });
        let mut session = Session::new(Table::new(10, &mut tables[0..records], &mut []));
        assert_eq!(rt; session.load(source), Ok(Verdict::Open));
        assert_eq!(rt; settled(&mut session), Err(refusal));
        assert_eq!(rt; session.verdict(), Verdict::Open);
        assert_eq!(rt; session.advance(), Err(refusal));
        assert_eq!(rt; settled(&mut session), Err(refusal));
    }
    Ok(())
}

// What is refused of an empty session, and of a settled one.
fn calls<S: Store + Drop>(rt: &impl Abort, store: S) {
    let mut session = Session::new(store);
    let mut states = [0; 1];
    let mut inputs = [0; 2];
    assert_eq!(rt; session.verdict(), Verdict::Empty);
    assert_eq!(rt; session.advance(), Err(Fault::Empty));
    assert_eq!(rt; session.trace(&mut states, &mut inputs), Err(Fault::Empty));
    assert_eq!(rt; session.inside(0), Err(Fault::Empty));
    assert_eq!(rt;
        session.load(source(&FOLLOW, b"1", b"!s0")),
        Ok(Verdict::Open)
    );
    assert_eq!(rt; session.load(source(&FOLLOW, b"", b"")), Err(Fault::Loaded));
    assert_eq!(rt;
        session.trace(&mut states, &mut inputs),
        Err(Fault::Verdict)
    );
    assert_eq!(rt; session.inside(0), Err(Fault::Verdict));
    assert_eq!(rt; session.advance(), Ok(Verdict::Unsafe(1)));
    assert_eq!(rt; session.advance(), Err(Fault::Settled));
    assert_eq!(rt;
        session.trace(&mut states, &mut inputs),
        Err(Fault::Short { needed: 2 })
    );
    assert_eq!(rt; session.inside(0), Err(Fault::Verdict));
    assert_eq!(rt; session.verdict(), Verdict::Unsafe(1));
}

fn safe_calls<S: Store + Drop>(rt: &impl Abort, store: S) {
    let mut session = Session::new(store);
    assert_eq!(rt;
        session.load(source(&FOLLOW, b"!v0", b"!s0")),
        Ok(Verdict::Open)
    );
    assert_eq!(rt; session.advance(), Ok(Verdict::Safe));
    assert_eq!(rt; session.inside(0), Ok(true));
    assert_eq!(rt; session.inside(1), Ok(false));
    assert_eq!(rt; session.inside(2), Err(Fault::State));
}

#[test]
fn calls_out_of_turn(rt: HostRuntime) {
    let mut nodes = [Node::default(); 100];
    let mut tables = [Truths::default(); 50];
    let mut links = [0; 100];
    calls(&rt, Diagram::new(3, &mut nodes, &mut links));
    calls(&rt, Table::new(3, &mut tables, &mut links));
    safe_calls(&rt, Diagram::new(3, &mut nodes, &mut links));
    safe_calls(&rt, Table::new(3, &mut tables, &mut links));
}
