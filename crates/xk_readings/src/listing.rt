//! What is listed.

/// A list of numbers that can be read, with how its edges are taken.
#[derive(Drop)]
pub struct Reading {
    /// What is printed along the way.
    pub numbers: Vec<i64>,
    /// How one edge is taken after another: the numbers that they have for that.
    pub acts: Vec<usize>,
}

/// Lists of numbers that can be read, and whether these are all.
#[derive(Drop)]
pub struct Readings {
    /// Each list of numbers once, rising: a list before those that go on behind it.
    pub list: Vec<Reading>,
    /// Whether nothing else can be read.
    pub complete: bool,
}
