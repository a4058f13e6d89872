// What holds of every list of byte writes, reads and lock calls on registers before a session, whatever its screen: definitions in `specs/`,
// the theorem in `proofs/AsCalls.antt`. It has no code, and no crate writes registers by it yet: `specs/Calls.antt` is for its contract.
#![tactic(auto)]
