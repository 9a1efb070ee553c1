// A refusal of the store gains the part and the place of its call.
ghost use Rattle.std.specs.Prelude.{◌≡◌};
ghost use Rattle.making.specs.Ends.{placed};

use crate::fault::Fault;
use store::refusal::Refusal;

// The part is whatever tells it, a `Part` or a number.
// No struct of the part and the place: their reader is a notice, which tells the place as a usize, and would take it apart.
pub fn place_at<T, P: Copy>(answer: Result<T, Refusal>, part: P, place: u16) -> Result<T, Fault<P>>
    ensures { result ≡ placed part place answer }
{
    answer.map_err(|refusal| Fault::at(refusal, part, place))
}
