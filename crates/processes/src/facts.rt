// Laws of fronts. Nothing is computed: the contract is the point.
ghost use Rattle.processes.specs.Laws.{FrontLaws};

pub fn laws()
    ensures { FrontLaws }
{}
