// Figures worked out by hand. The contract says that they come out.
ghost use Rattle.clearance.specs.Figures.{Figures};

pub fn figures()
    ensures { Figures }
{}
