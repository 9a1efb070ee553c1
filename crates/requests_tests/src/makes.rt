// Requests over each make of store, and over layers.
use crate::scripts::{Arrays, Ask, Plain, Script, Told, UNWRITTEN, exchanges, sources, told_of};
use description::notice::Notice;
use description::source::Source;
use making::fault::Fault as Unmade;
use order::Layer;
use requests::reply::Reply;
use requests::serve;
use std::alloc::{AllocError, Global};
use std::process::Abort;
use std::test::Fail;
use store::Store;
use uses::fault::Fault;

// Two orders of 10 variables.
pub(crate) const ORDER: [u8; 10] = [9, 3, 0, 7, 1, 8, 2, 6, 5, 4];

pub(crate) const BACKWARDS: [u8; 10] = [9, 8, 7, 6, 5, 4, 3, 2, 1, 0];

pub(crate) fn layer<S: Store>(store: S) -> Layer<S> {
    Layer::new(store, &ORDER)
}

pub(crate) fn two_layers<S: Store>(store: S) -> Layer<Layer<S>> {
    Layer::new(layer(store), &BACKWARDS)
}

// The replies to requests, each with the arrays that it had, and the store.
pub(crate) fn replies<S: Store + Drop>(
    asks: &[Ask],
    sources: &[Source<'_>],
    store: S,
    heap: Global,
) -> Result<(S, Vec<(Reply, Arrays)>), AllocError> {
    let mut arrays = vec![in heap; UNWRITTEN; asks.len()]?;
    let mut list = exchanges(asks, sources, &mut arrays, heap)?;
    let store = serve(store, &mut list);
    let mut replies = Vec::new(heap);
    for exchange in list.iter() {
        replies.push(exchange.reply)?;
    }
    drop(list);
    let mut both = Vec::new(heap);
    for (reply, arrays) in replies.iter().zip(arrays.iter()) {
        both.push((*reply, *arrays))?;
    }
    Ok((store, both))
}

// How often the scripts came to what they are for.
#[derive(Clone, Copy, Default, Debug)]
pub(crate) struct Seen {
    pub(crate) traces: u32,
    pub(crate) insides: u32,
    pub(crate) starts: u32,
    pub(crate) loads_after_refusal: u32,
    pub(crate) rooms: u32,
    pub(crate) same_rooms: u32,
    pub(crate) loads_after_room: u32,
}

fn count(at: &mut u32, once: bool) {
    *at = at.wrapping_add(u32::from(once));
}

fn is_room(reply: Reply) -> bool {
    matches!(
        reply,
        Reply::Load(Err(Fault::Making(Unmade::Room { .. })))
            | Reply::Advance(Err(Fault::Making(Unmade::Room { .. })))
    )
}

// Each reply of a session over the store, and each array, is what the rules say, but that a call that they accept
// may be refused for room. Such a refusal leaves the session as it was, and comes again when the call is made again.
pub(crate) fn agrees<S: Store + Drop>(
    rt: &impl Abort,
    script: &Script,
    store: S,
    seen: &mut Seen,
    heap: Global,
) -> Result<(S, Vec<(Reply, Arrays)>), Fail> {
    let sources = sources(&script.jobs, heap)?;
    let (store, replies) = replies(&script.asks, &sources, store, heap)?;
    let mut plain = Plain::new(heap);
    let mut refused_load = false;
    let mut room = None;
    for (ask, (reply, arrays)) in script.asks.iter().zip(replies.iter()) {
        let mut wanted = UNWRITTEN;
        if is_room(*reply) {
            assert!(rt; plain.accepts(*ask, &script.jobs));
            if let Some((earlier, refusal)) = room {
                if earlier == *ask {
                    assert_eq!(rt; *reply, refusal);
                    count(&mut seen.same_rooms, true);
                }
            }
            count(&mut seen.rooms, true);
            room = Some((*ask, *reply));
        } else {
            let told = told_of(*reply);
            assert_eq!(rt; Some(told), plain.answer(*ask, &script.jobs, &mut wanted)?);
            let start = matches!(told, Told::Load(Err(Notice { number: 6, .. })));
            count(&mut seen.starts, start);
            let loads = matches!(reply, Reply::Load(Ok(_)));
            count(&mut seen.traces, matches!(reply, Reply::Trace(Ok(_))));
            count(&mut seen.insides, matches!(reply, Reply::Inside(Ok(_))));
            count(&mut seen.loads_after_refusal, loads && refused_load);
            count(&mut seen.loads_after_room, loads && room.is_some());
            refused_load = refused_load || matches!(reply, Reply::Load(Err(_)));
            if loads {
                room = None;
            }
        }
        assert_eq!(rt; *arrays, wanted);
    }
    Ok((store, replies))
}
