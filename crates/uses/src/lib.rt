// Uses of a session: its calls with their answers, the rules that each call follows, and what every use comes to.
#![tactic(auto)]

ghost use Rattle.uses.specs.Promise.{Promised};
ghost use Rattle.uses.specs.Determined.{Determined};
ghost use Rattle.uses.specs.Possible.{Possible};

pub mod fault;
pub mod verdict;

/// However a session is used, over whatever store: each call was a step by the rules, an accepted load or advance left
/// every result of its list held, a refusal for room was the store's own, each trace is a shortest run that breaks the
/// property, and the verdict means what it says of the one circuit that was loaded.
pub fn uses_keep_the_promise()
    ensures { Promised }
{}

/// The rules fix each answer: by the arguments alone, unless the store had no room, and else by what it then shows.
pub fn answers_are_determined()
    ensures { Determined }
{}

/// The rules leave no call without an answer, as far as the store answers.
pub fn calls_are_answered()
    ensures { Possible }
{}
