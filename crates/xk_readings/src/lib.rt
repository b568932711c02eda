//! Which lists of numbers can be read along the edges of a graph, from its first node to nodes at which a reading may end; and how many
//! they are.
#![tactic(auto)]

mod all_readings;
mod automaton;
mod branches;
mod closure;
mod counts;
mod edge;
mod graph;
mod list_count;
mod listing;
mod moves;
mod node_set;
mod states;
mod useful;
mod walk;
mod ways;

pub use all_readings::readings;
pub use edge::Edge;
pub use list_count::{HowMany, how_many};
pub use listing::{Reading, Readings};
