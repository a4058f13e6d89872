// What holds of every list of calls on a session, whatever its screen: definitions in `specs/`, the theorem in `proofs/Demand3.antt`. It
// has no code: the crates above it run the calls, and their contracts cite `specs/Calls.antt`.
#![tactic(auto)]
