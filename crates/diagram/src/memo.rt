// The memo of the descents: every task has one place in a table, and the last one that was made there stays.
ghost use Rattle.std.specs.Prelude.{◌≡◌, ◌+◌, ◌*◌, ◌^◌, ◌<◌};
ghost use Rattle.diagram.specs.Remembered.{key, place, all_blank, updated, Recalls};

use nodes::GOLDEN;
use store::task::{Op, Task};

const BITS: u32 = 13;

const SLOTS: usize = 1 << BITS;

// A slot is a word: the key of a task and then, in its last 16 bits, the number of its function. No struct of them, since it would
// be compared and written field by field.
#[derive(Drop)]
pub struct Memo {
    slots: [u64; SLOTS],
}

// The kind of the task and its operands, side by side. No derived hash: a hasher to take it would say the same in more lines.
// Inlined with what looks up and remembers, since where the kind of a task is known, its key is straight code.
#[inline(always)]
fn key(task: Task) -> u64
    ensures key { result ≡ key task }
    ensures small { result < 5 * 2 ^ 32 }
{
    let (kind, a, b) = match task {
        Task::Both(Op::And, a, b) => (0, u64::from(a), u64::from(b)),
        Task::Both(Op::Or, a, b) => (1, u64::from(a), u64::from(b)),
        Task::Not(a) => (2, u64::from(a), 0),
        Task::Cofactor(a, i, t) => (3, u64::from(a), 2 * u64::from(i) + u64::from(t)),
        Task::Variable(i) => (4, u64::from(i), 0),
    };
    (kind * 65536 + a) * 65536 + b
}

// The top bits of a product that spreads keys which are close. A hash of a node is made in the same way, of other bits: a function of how many
// would have to ask that there are so many.
#[inline(always)]
fn place(key: u64) -> usize
    ensures hashed { result ≡ place key }
    ensures within { result < SLOTS }
{
    (key.wrapping_mul(GOLDEN) >> (64 - BITS)) as usize
}

impl Memo {
    // Nothing was made. Zero says that false and false is false, in every diagram: so each slot is right from the start.
    pub fn new() -> Memo
        ensures { result ≡ all_blank }
    {
        Memo { slots: [0; SLOTS] }
    }

    // Nothing was made: filled where it stands, since a new memo would take its size of the caller's stack.
    #[cold]
    pub fn clear(&mut self)
        ensures { self.new ≡ all_blank }
    {
        self.slots.fill(0);
    }

    // The number of the task, if its place holds this task and not another.
    #[inline(always)]
    pub fn lookup(&self, task: Task) -> Option<u16>
        ensures { Recalls self.now task result }
    {
        let key = key(task);
        let slot = self.slots[place(key)];
        (slot / 65536 == key).then_some((slot % 65536) as u16)
    }

    #[inline(always)]
    pub fn remember(&mut self, task: Task, number: u16)
        ensures { self.new ≡ updated self.old task number }
    {
        let key = key(task);
        self.slots[place(key)] = 65536 * key + u64::from(number);
    }
}
