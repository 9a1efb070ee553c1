use super::search::Search;
use store::Store;

// A session over one store, which it holds, and its search once a circuit is loaded.
// What the numbers stand for is told by `Keeps`, and no ghost field: such a field holds a fact and no value, and could
// not name the state.
#[derive(Drop)]
pub struct Session<S: Store> {
    pub(crate) store: S,
    pub(crate) search: Option<Search>,
}
