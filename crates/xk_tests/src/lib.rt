//! Tests of the libraries, of what neither their contracts say nor the built program shows: workers that compute at once, devices that fail, a line
//! without an end, and the texts of faults.
#![tactic(auto)]

#[cfg(test)]
mod devices;
#[cfg(test)]
mod fault_messages;
#[cfg(test)]
mod programs;
#[cfg(test)]
mod serving;
#[cfg(test)]
mod workers;
