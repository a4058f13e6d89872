// The C face: each call but panel_version is the call below it of the same name, with its answer written through pointers,
// and its contract is that call's own. include/panel.h says what a caller in C has to know.
#![tactic(auto)]

mod numbers;
mod pages;
mod palettes;
mod palettes9;
mod pictures;
mod sessions;
mod sessions9;
mod version;
