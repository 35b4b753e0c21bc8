// What is proved of the gate whichever way the permit is followed, as the contracts of calls that do nothing.
ghost use Rattle.gate.specs.Follow.{AfterLaws, plain};
ghost use Rattle.gate.specs.Refusals.{RefusalsTold};
ghost use Rattle.gate.specs.Theorems.{GateHolds, LawsSuffice};

// The gate is exact and sound for every way to follow the permit that keeps the laws of After,
// and tells each refusal by its number and place.
pub fn laws_suffice()
    ensures holds { LawsSuffice }
    ensures refusals { RefusalsTold }
{}

// The plain way keeps them, so that the gate is exact and sound with it.
pub fn plain_keeps_laws()
    ensures laws { AfterLaws plain }
    ensures holds { GateHolds plain }
{}
