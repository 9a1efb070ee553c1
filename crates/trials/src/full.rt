// Stores of 65,534 records, filled to the last one.
use diagram::Diagram;
use diagram::making::check as check_diagram;
use nodes::Node;
use std::alloc::Global;
use std::process::Abort;
use std::test::Fail;
use store::Store;
use store::fitting::MOST_RECORDS;
use store::refusal::{Refusal, Unfit};
use table::Table;
use table::truths::Truths;

// The products of a literal of each of the first `count` variables, or those of the last round that there is room for.
fn products<S: Store>(
    rt: &impl Abort,
    store: &mut S,
    count: u8,
    heap: Global,
) -> Result<Vec<u16>, Fail> {
    let mut products = Vec::new(heap);
    products.push(1)?;
    for i in (0..count).rev() {
        let on = store.variable(i)?;
        let off = store.not(on)?;
        let mut longer = Vec::new(heap);
        for literal in [on, off] {
            for product in products.iter() {
                match store.and(literal, *product) {
                    Ok(number) => longer.push(number)?,
                    Err(refusal) => {
                        assert_eq!(rt; refusal, Refusal::Room(0));
                        return Ok(longer);
                    }
                }
            }
        }
        products = longer;
    }
    Ok(products)
}

// With a link for each record, and with links for half of them.
#[test]
fn full_diagram(rt: HostRuntime) -> Result<(), Fail> {
    let mut records = vec![in rt.alloc(); Node::default(); MOST_RECORDS + 1]?;
    assert_eq!(rt; check_diagram(15, &records), Err(Unfit::Store));
    records.truncate(MOST_RECORDS);
    let mut links = vec![in rt.alloc(); 1; MOST_RECORDS]?;
    fills(&rt, Diagram::new(15, &mut records, &mut links), rt.alloc())?;
    links.truncate(MOST_RECORDS / 2);
    fills(&rt, Diagram::new(15, &mut records, &mut links), rt.alloc())
}

// Whether a store of 15 variables is filled to its last number, which is of a function that is somewhere true.
fn fills<S: Store + Drop>(rt: &impl Abort, mut store: S, heap: Global) -> Result<(), Fail> {
    let products = products(rt, &mut store, 15, heap)?;
    assert_eq!(rt; products.last().copied(), Some(65535));
    assert_eq!(rt; store.figures().used, 65534);
    let mut held = false;
    for w in 0..32768 {
        held |= store.value(65535, w)?;
    }
    assert!(rt; held);
    Ok(())
}

// Every function of 4 variables, as a union of cells: with the constants they are all 65,536 numbers.
#[test]
fn full_table(rt: HostRuntime) -> Result<(), Fail> {
    let mut records = vec![in rt.alloc(); Truths::default(); MOST_RECORDS]?;
    let mut links = vec![in rt.alloc(); 0; MOST_RECORDS]?;
    let mut store = Table::new(4, &mut records, &mut links);
    let cells = products(&rt, &mut store, 4, rt.alloc())?;
    let mut unions = Vec::new(rt.alloc());
    unions.push(0)?;
    for cell in cells {
        for union in unions.clone()? {
            unions.push(store.or(union, cell)?)?;
        }
    }
    assert_eq!(rt; unions.len(), 65536);
    assert_eq!(rt; unions.last().copied(), Some(1));
    assert_eq!(rt; store.figures().used, 65534);
    assert!(rt; store.not(65535).is_ok());
    Ok(())
}
