// The laws of the rules, each as the promise of a function: without their proofs the crate is refused.
ghost use Rattle.rules.specs.Law.{Law, Lasting};

// Every run of calls from an accepted format keeps its promises: the ceiling of erases, the erases told, and the ledger.
pub fn law_stands()
    ensures { Law }
{}

// No call of such a run is refused for wear while each block has the ceiling of the run and 128 erases to spare.
pub fn lasting_stands()
    ensures { Lasting }
{}
