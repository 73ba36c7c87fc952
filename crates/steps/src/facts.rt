// Laws of steps, and worked samples. Nothing is computed: the contracts are the point.
ghost use Rattle.steps.specs.Laws.{StepLaws};
ghost use Rattle.steps.specs.Samples.{Samples};

pub fn laws()
    ensures { StepLaws }
{}

pub fn samples()
    ensures { Samples }
{}
