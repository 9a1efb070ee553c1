// From what was made inside to what a store answers.
ghost use Rattle.diagram.specs.Making.{Finishes};

use super::Diagram;
use records::Full;
use store::refusal::Refusal;

impl Diagram<'_> {
    // What was made, or, where the records ran out, the refusal: only the first `used` nodes stay. Where there are
    // others, the memo may have their numbers, so it is emptied; a refusal before any was added walks over neither
    // memo nor chains.
    pub(super) fn finish(&mut self, used: usize, made: Result<u16, Full>) -> Result<u16, Refusal>
        ensures { Finishes self.old self.new used made result }
    {
        if let Ok(number) = made {
            return Ok(number);
        }
        if self.nodes.len() > used {
            self.nodes.truncate(used);
            self.memo.clear();
        }
        Err(Refusal::Room(self.capacity() - self.used()))
    }
}
