//! What source texts mean, a step at a time, and what a module has to be that is compiled from one. Definitions alone.
#![tactic(auto)]
