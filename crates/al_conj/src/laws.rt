//! Laws over conditions and their conjuncts.

ghost use Rattle.al_conj.specs.Laws.{ConjunctsDecide, AllOfDecides, ConjunctsName, AllOfNames, ConjunctsCall, AllOfCalls, ConjunctsAreLeaves, LeavesStay};

/// A condition and its conjuncts are TRUE of the same rows and read the same variables. It does
/// nothing: its clauses speak of every condition.
pub fn conjunct_laws()
    ensures decide { ConjunctsDecide }
    ensures all_of_decides { AllOfDecides }
    ensures name { ConjunctsName }
    ensures all_of_names { AllOfNames }
    ensures call { ConjunctsCall }
    ensures all_of_calls { AllOfCalls }
    ensures are_leaves { ConjunctsAreLeaves }
    ensures leaves_stay { LeavesStay }
{}
