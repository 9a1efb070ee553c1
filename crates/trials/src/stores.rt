// Every make of store, and layers over them, driven through the same calls.
use diagram::Diagram;
use diagram::making::check as check_diagram;
use nodes::Node;
use order::{Layer, check as check_order};
use std::alloc::Global;
use std::process::Abort;
use std::test::Fail;
use store::Store;
use store::figures::Figures;
use store::refusal::{Refusal, Unfit};
use store::task::{Op, Task};
use table::truths::Truths;
use table::{Table, check as check_table};

const ORDER: [u8; 4] = [2, 0, 3, 1];

const STEPS: usize = 96;

// The truths of a function of 4 variables at their 16 valuations, as bits.
fn truths<S: Store>(store: &mut S, a: u16) -> Result<u16, Refusal> {
    let mut bits = 0;
    for w in 0..16 {
        bits |= u16::from(store.value(a, w)?) << w;
    }
    Ok(bits)
}

// A step of a generator of random-looking numbers.
fn next(seed: u32) -> u32 {
    seed.wrapping_mul(1103515245).wrapping_add(12345)
}

// The 4 variables, and then a making call on what is made so far, as the seed says.
fn make<S: Store>(store: &mut S, seed: u32, made: &[u16]) -> Result<u16, Refusal> {
    let count = made.len();
    if count < 4 {
        return store.variable(count as u8);
    }
    let a = made[seed as usize / 16 % count];
    let b = made[seed as usize / 4096 % count];
    let i = (seed / 1048576 % 4) as u8;
    let and = Task::Both(Op::And, a, b);
    let or = Task::Both(Op::Or, a, b);
    let cofactor = Task::Cofactor(a, i, seed % 2 == 1);
    let tasks = [
        Task::Variable(i),
        Task::Not(a),
        and,
        and,
        and,
        or,
        or,
        cofactor,
    ];
    match tasks[seed as usize / 65536 % tasks.len()] {
        Task::Variable(i) => store.variable(i),
        Task::Not(a) => store.not(a),
        Task::Both(Op::And, a, b) => store.and(a, b),
        Task::Both(Op::Or, a, b) => store.or(a, b),
        Task::Cofactor(a, i, t) => store.cofactor(a, i, t),
    }
}

// The truths of all that is made, step after step.
fn driven<S: Store + Drop>(mut store: S, heap: Global) -> Result<Vec<u16>, Fail> {
    let mut made = Vec::new(heap);
    let mut told = Vec::new(heap);
    let mut seed = 1;
    for _ in 0..STEPS {
        let a = make(&mut store, seed, &made)?;
        made.push(a)?;
        told.push(truths(&mut store, a)?)?;
        seed = next(seed);
    }
    Ok(told)
}

fn layer<S: Store>(store: S) -> Layer<S> {
    Layer::new(store, &ORDER)
}

// With a link for each record, for some of them and for none; what the links held before does not matter. One is lent.
// Ranges from 0: of those to an end alone, `slice_bounds` stayed open.
#[test]
fn makes_agree(rt: HostRuntime) -> Result<(), Fail> {
    let heap = rt.alloc();
    let mut nodes = [Node::default(); 300];
    let mut tables = [Truths::default(); 100];
    let mut links = [7; 300];
    let told = driven(Diagram::new(4, &mut nodes, &mut links), heap)?;
    assert_eq!(rt; told.get(2).copied(), Some(0xf0f0));
    assert_eq!(rt;
        driven(&mut Diagram::new(4, &mut nodes, &mut links), heap)?,
        told
    );
    assert_eq!(rt; driven(Table::new(4, &mut tables, &mut links), heap)?, told);
    assert_eq!(rt;
        driven(layer(Diagram::new(4, &mut nodes, &mut links[0..20])), heap)?,
        told
    );
    assert_eq!(rt;
        driven(layer(Table::new(4, &mut tables, &mut links[0..20])), heap)?,
        told
    );
    assert_eq!(rt;
        driven(layer(layer(Diagram::new(4, &mut nodes, &mut []))), heap)?,
        told
    );
    assert_eq!(rt;
        driven(layer(layer(Table::new(4, &mut tables, &mut []))), heap)?,
        told
    );
    Ok(())
}

// What is refused of a store of 2 variables that holds the constants alone and has no records.
fn bare<S: Store + Drop>(rt: &impl Abort, mut store: S) {
    assert_eq!(rt; store.variable(0), Err(Refusal::Room(0)));
    assert_eq!(rt; store.variable(2), Err(Refusal::Variable));
    assert_eq!(rt; store.not(0), Ok(1));
    assert_eq!(rt; store.not(2), Err(Refusal::Number));
    assert_eq!(rt; store.and(1, 65535), Err(Refusal::Number));
    assert_eq!(rt; store.or(2, 0), Err(Refusal::Number));
    assert_eq!(rt; store.cofactor(2, 9, true), Err(Refusal::Number));
    assert_eq!(rt; store.cofactor(1, 9, true), Err(Refusal::Variable));
    assert_eq!(rt; store.value(2, 9), Err(Refusal::Number));
    assert_eq!(rt; store.value(1, 4), Err(Refusal::Variable));
    assert_eq!(rt; store.value(1, 3), Ok(true));
    assert_eq!(rt; store.figures().used, 0);
}

#[test]
fn stores_with_no_records(rt: HostRuntime) {
    bare(&rt, Diagram::new(2, &mut [], &mut []));
    bare(&rt, Table::new(2, &mut [], &mut []));
    bare(&rt, &mut Table::new(2, &mut [], &mut []));
    bare(&rt, Layer::new(Diagram::new(2, &mut [], &mut []), &[1, 0]));
    bare(&rt, Layer::new(Table::new(2, &mut [], &mut []), &[1, 0]));
}

// The last records of a diagram: a price of 2 is refused with 1 unit free, and nothing changes.
#[test]
fn last_records(rt: HostRuntime) -> Result<(), Fail> {
    let mut nodes = [Node::default(); 5];
    let mut links = [65535; 7];
    for count in [0, 3, 7] {
        let store = Diagram::new(3, &mut nodes, &mut links[..count]);
        fills_up(&rt, store)?;
    }
    Ok(())
}

fn fills_up<S: Store + Drop>(rt: &impl Abort, mut store: S) -> Result<(), Fail> {
    let a = store.variable(0)?;
    let b = store.variable(1)?;
    let c = store.variable(2)?;
    let both = store.and(a, b)?;
    assert_eq!(rt; store.or(both, c), Err(Refusal::Room(1)));
    assert_eq!(rt;
        store.figures(),
        Figures {
            variables: 3,
            used: 4,
            capacity: 5,
            top_price: 7,
        }
    );
    assert_eq!(rt; store.or(b, c), Ok(6));
    assert_eq!(rt; store.or(both, c), Err(Refusal::Room(0)));
    assert_eq!(rt; store.cofactor(both, 0, true), Ok(b));
    Ok(())
}

#[test]
fn makings_are_checked(rt: HostRuntime) {
    assert_eq!(rt; check_diagram(0, &[]), Err(Unfit::Store));
    assert_eq!(rt; check_diagram(24, &[Node::default(); 3]), Ok(()));
    assert_eq!(rt; check_diagram(25, &[]), Err(Unfit::Store));
    assert_eq!(rt; check_table(10, &[]), Ok(()));
    assert_eq!(rt; check_table(11, &[]), Err(Unfit::Store));
    let mut store = Table::new(11, &mut [], &mut []);
    assert_eq!(rt;
        store.figures(),
        Figures {
            variables: 1,
            used: 0,
            capacity: 0,
            top_price: 1,
        }
    );
    assert_eq!(rt; check_order(&mut store, &[0]), Ok(()));
    assert_eq!(rt; check_order(&mut store, &[1]), Err(Unfit::Order));
    assert_eq!(rt; check_order(&mut store, &[0, 0]), Err(Unfit::Order));
    assert_eq!(rt;
        (
            Refusal::Room(3).number(),
            Refusal::Number.number(),
            Refusal::Variable.number()
        ),
        (10, 16, 17)
    );
    assert_eq!(rt; (Unfit::Order.number(), Unfit::Store.number()), (18, 19));
}

// Of 4 variables: number 2 is variable 3, true from valuation 8 on.
#[test]
fn tables_keep_a_record_a_function(rt: HostRuntime) -> Result<(), Refusal> {
    let mut tables = [Truths::default(); 2];
    let mut store = Table::new(4, &mut tables, &mut []);
    let variable = store.variable(3)?;
    let bytes = store.record(variable).map(|t| t.bytes).unwrap_or_default();
    assert_eq!(rt; (bytes[0], bytes[1]), (0, 0xff));
    assert_eq!(rt; bytes[2..].iter().all(|byte| *byte == 0), true);
    assert_eq!(rt;
        (
            store.record(0).is_none(),
            store.record(1).is_none(),
            store.record(3).is_none()
        ),
        (true, true, true)
    );
    Ok(())
}
