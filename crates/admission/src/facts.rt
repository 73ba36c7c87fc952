// Worked samples, shown from the definitions. Nothing is computed: the contract is the point.
ghost use Rattle.admission.specs.Samples.{Samples};

pub fn samples()
    ensures { Samples }
{}
