// Laws of arrivals.
ghost use Rattle.arrivals.specs.Laws.{ArrivalLaws};

/// Nothing is computed: the contract is the point.
pub fn laws()
    ensures { ArrivalLaws }
{}
