// The order and the arithmetic of finite singles without a sign bit: laws in `proofs/Nonneg.antt`, which the crates above it cite. It has
// no code.
#![tactic(auto)]
