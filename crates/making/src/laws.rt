// What is proved of the lists of making calls.
ghost use Rattle.runs.specs.Models.{Model};
ghost use Rattle.making.specs.Laws.{ListsAreHeld, ListsAreShort};

pub fn lists_are_held()
    ensures { ListsAreHeld }
{}

pub fn lists_are_short()
    ensures { (m : Model) → ListsAreShort m }
{}
