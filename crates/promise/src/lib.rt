// What the library promises of its calls taken together, and of the definitions that their contracts cite: the one function here is proved
// only if every clause of `specs/Promise.antt` is a theorem. No program calls it.
#![tactic(auto)]

ghost use Rattle.promise.specs.Promise.{Promise};

// Answers true; what it ensures is the promise.
pub fn promised() -> bool
    ensures { Promise }
{
    true
}
