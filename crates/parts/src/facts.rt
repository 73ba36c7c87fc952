// What is read at a place is the tree that stands there. Nothing is computed: the contract is the point.
ghost use Rattle.parts.specs.Laws.{PartsRead};

pub fn laws()
    ensures { PartsRead }
{}
