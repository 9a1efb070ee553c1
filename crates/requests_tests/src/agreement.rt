// Scripts that look random over every make, with equal answers.
use crate::makes::{Seen, agrees, layer, two_layers};
use crate::random::Random;
use crate::scripts::Script;
use diagram::Diagram;
use nodes::Node;
use std::alloc::Global;
use std::process::Abort;
use std::test::Fail;
use store::Store;
use table::Table;
use table::truths::Truths;

// A script over a store, and then another one over what that left.
fn both<S: Store + Drop>(
    rt: &impl Abort,
    scripts: &[Script; 2],
    store: S,
    seen: &mut Seen,
    heap: Global,
) -> Result<(), Fail> {
    let (store, _) = agrees(rt, &scripts[0], store, seen, heap)?;
    agrees(rt, &scripts[1], store, seen, heap)?;
    Ok(())
}

#[test]
fn scripts_agree(rt: HostRuntime) -> Result<(), Fail> {
    let heap = rt.alloc();
    let mut random = Random::new(1);
    let mut seen = Seen::default();
    let mut nodes = vec![in heap; Node::default(); 8000]?;
    let mut tables = vec![in heap; Truths::default(); 1000]?;
    let mut links = vec![in heap; 0; 1000]?;
    for _ in 0..1000 {
        let scripts = [
            Script::new(&mut random, heap)?,
            Script::new(&mut random, heap)?,
        ];
        let diagram = Diagram::new(10, &mut nodes, &mut links);
        both(&rt, &scripts, diagram, &mut seen, heap)?;
        let table = Table::new(10, &mut tables, &mut links);
        both(&rt, &scripts, table, &mut seen, heap)?;
        let diagram = layer(Diagram::new(10, &mut nodes, &mut links));
        both(&rt, &scripts, diagram, &mut seen, heap)?;
        let table = layer(Table::new(10, &mut tables, &mut links));
        both(&rt, &scripts, table, &mut seen, heap)?;
        let diagram = two_layers(Diagram::new(10, &mut nodes, &mut links));
        both(&rt, &scripts, diagram, &mut seen, heap)?;
        let table = two_layers(Table::new(10, &mut tables, &mut links));
        both(&rt, &scripts, table, &mut seen, heap)?;
    }
    assert!(rt; seen.rooms == 0);
    assert!(rt;
        seen.traces
            .min(seen.insides)
            .min(seen.starts)
            .min(seen.loads_after_refusal)
            > 100,
        "{seen:?}"
    );
    Ok(())
}
