// The blocks of a picture: what each is and what it depends on, the table T1 to T13, and where blocks' words lie in an output. Definitions
// and laws in `specs/`; it has no code.
#![tactic(auto)]
