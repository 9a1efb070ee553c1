// Places on chains, one chain a bucket: its newest place first, and from each place a link to the next older one.
ghost use Rattle.std.specs.Prelude.{◌≡◌, ℕ, ◌-◌, ◌<◌, ◌≤◌, min, length, slice_index};
ghost use Rattle.records.specs.Chains.{buckets, Cut, limit, Newest, Unwound};

pub(crate) const BUCKETS: usize = 16384;

// A head or a link is 1 + a place, or 0 for none: the links are lent as numbers of 16 bits, which an `Option` has no room in, and a walk that
// made an `Option` of each would only take it apart. What the links of other places hold does not matter.
#[derive(Drop)]
pub struct Index<'a> {
    heads: [u16; BUCKETS],
    links: &'a mut [u16],
}

impl<'a> Index<'a> {
    // No place is on a chain.
    pub(crate) fn new(links: &'a mut [u16]) -> Index<'a>
        ensures { (b : ℕ) → slice_index result.heads b ≡ 0 }
    {
        Index {
            heads: [0; BUCKETS],
            links,
        }
    }

    // How many places can be filed: those that have a link, and that a link can name.
    pub(crate) fn limit(&self) -> usize
        ensures { result ≡ limit self.now }
    {
        self.links.len().min(usize::from(u16::MAX))
    }

    // 1 + the newest place of the bucket, or 0.
    pub(crate) fn first(&self, bucket: usize) -> usize
        requires { bucket < buckets }
        ensures { result ≡ slice_index self.now.heads bucket }
    {
        usize::from(self.heads[bucket])
    }

    // From 1 + a place to 1 + the next older place of its bucket, or to 0.
    // A link of a filed place leads to an older one. By the minimum every walk ends, whatever the links hold.
    pub(crate) fn next(&self, at: usize) -> usize
        requires some { 0 < at }
        requires linked { at ≤ length self.now.links.now }
        ensures { result ≡ min (slice_index self.now.links.now (at - 1)) (at - 1) }
    {
        usize::from(self.links[at - 1]).min(at - 1)
    }

    // The place becomes the newest of the bucket.
    pub(crate) fn file(&mut self, place: usize, bucket: usize)
        requires fits { place < limit self.old }
        requires bucket { bucket < buckets }
        ensures { Newest self.old place bucket self.new }
    {
        self.links[place] = self.heads[bucket];
        self.heads[bucket] = place as u16 + 1;
    }

    // Where the chain from a head comes to the first `kept` places.
    fn unwind(&self, head: u16, kept: usize) -> u16
        ensures { Unwound self.now.links.now head kept result }
    {
        let mut at = self.links.len().min(usize::from(head));
        while at > kept {
            at = self.next(at);
        }
        at as u16
    }

    // Only the first `kept` places stay.
    pub(crate) fn truncate(&mut self, kept: usize)
        ensures { Cut self.old kept self.new }
    {
        // By number: the check has no rule yet for a `for` over the heads, which would be lent while the links are read.
        for b in 0..BUCKETS {
            let head = self.unwind(self.heads[b], kept);
            self.heads[b] = head;
        }
    }
}
