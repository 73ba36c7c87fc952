// Facts about the definitions that the contracts of this crate cite. Nothing is computed: the contracts are the point.
ghost use Rattle.values.specs.Laws.{Laws, Samples};

pub fn laws()
    ensures { Laws }
{}

pub fn samples()
    ensures { Samples }
{}
