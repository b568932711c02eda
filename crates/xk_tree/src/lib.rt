//! The tree of a source text, and the faults that a text or its tree may have.
#![tactic(auto)]

mod fault;
mod tree;

pub use fault::{FrontError, FrontFault, FrontRule};
pub use tree::{
    Binding, Bound, ClockList, Expr, Method, Name, Number, Operator, Param, Right, Shared, Stmt,
    Tree, TypeName, Verb, Written,
};
