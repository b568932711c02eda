//! The vocabulary of the machine: instructions, units, modules and their limits, events, the verifier's rules, and
//! the devices that a program reads from and writes to.
#![tactic(auto)]

mod device;
mod instr;
mod rules;
mod std_devices;
mod tape;
mod unit;
mod world;

pub use device::{Failed, Sink, Source};
pub use instr::{Args, Comparison, Instr};
pub use rules::{Kind, Rule, Visit};
pub use std_devices::Counted;
pub use tape::Tape;
pub use unit::{
    Limit, MAX_ARGS, MAX_CODE, MAX_SHARED, MAX_SLOTS, MAX_UNITS, Module, ParamKind, Unit, UnitKind,
};
pub use world::{Act, ClockId, Entry, Event, Standing, Status, Value};
