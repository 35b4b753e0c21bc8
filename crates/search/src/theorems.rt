// What is proved of the search whichever way the permit is followed, as the contract of a call that does nothing.
ghost use Rattle.search.specs.Theorems.{LawsSuffice};

// The refusals, the certificate and the trace shown are as said for every way to follow the permit that keeps the
// laws of After.
pub fn laws_suffice()
    ensures { LawsSuffice }
{}
