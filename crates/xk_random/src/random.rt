//! A chooser that draws from a seed.

ghost use Rattle.std.specs.Prelude.{◌≡◌, ◌<◌, ◌^◌, length};
ghost use Rattle.xk_random.specs.Chance.{chance_of, drawn, folded, next_state, place_again, place_by};

use std::marker::Model;
use xk_scheduler::Chooser;

/// The number by which the state grows: the golden ratio of 2^64.
const GROWTH: u64 = 11_400_714_819_323_198_485;

/// The two factors that mix a state.
const FIRST_FACTOR: u64 = 13_787_848_793_156_543_929;

const SECOND_FACTOR: u64 = 10_723_151_780_598_845_931;

/// Whoever is drawn: by four chances in five the one who stepped last, if it can go on, and else any of those that can. Two that begin with one
/// seed draw the same.
#[derive(Clone, Copy)]
pub struct Random {
    state: u64,
    taken: Option<u32>,
}

impl Model for Random {
    ghost use Rattle.xk_random.specs.Chance.{Chance};

    ghost Value = { Chance };

    ghost view = { λ r. record { state = r.state; taken = r.taken } };

    ghost inverse = { λ c. record { state = c.state; taken = c.taken } };
}

/// The state behind a draw.
fn next_state(state: u64) -> u64
    ensures { result ≡ next_state state }
{
    state.wrapping_add(GROWTH)
}

/// The number's upper bits, moved down so far, into its lower ones.
fn folded(z: u64, bits: u32) -> u64
    requires { bits < 64 }
    ensures { result ≡ folded z bits }
{
    z ^ (z >> bits)
}

/// The number that is drawn in a state.
fn drawn(state: u64) -> u64
    ensures { result ≡ drawn state }
{
    let once = folded(state, 30).wrapping_mul(FIRST_FACTOR);
    let twice = folded(once, 27).wrapping_mul(SECOND_FACTOR);
    folded(twice, 31)
}

/// Where this one stands among those that can step.
fn place_of(act: u32, enabled: &[u32]) -> Option<usize>
    ensures { result ≡ place_again (Some act) enabled.now }
{
    enabled.iter().position(|other| *other == act)
}

/// Where the one who was taken last stands among those that can step.
fn place_again(taken: Option<u32>, enabled: &[u32]) -> Option<usize>
    ensures { result ≡ place_again taken enabled.now }
{
    match taken {
        None => None,
        Some(act) => place_of(act, enabled),
    }
}

/// The place that a number stands for.
fn place_by(number: u64, taken: Option<u32>, enabled: &[u32]) -> usize
    requires { 0 < length enabled.now }
    ensures place { result ≡ place_by number taken enabled.now }
    ensures within { result < length enabled.now }
{
    let any = (number / 5 % enabled.len() as u64) as usize;
    if number % 5 == 0 {
        return any;
    }
    match place_again(taken, enabled) {
        Some(again) => again,
        None => any,
    }
}

impl Random {
    /// The one of this seed, before anybody was taken.
    pub fn new(seed: u64) -> Random
        ensures { result ≡ chance_of seed }
    {
        Random {
            state: seed,
            taken: None,
        }
    }
}

impl Chooser for Random {
    ghost use Rattle.xk_random.specs.Chance.{chance_after, chance_answer};

    ghost answer = { chance_answer };

    ghost after = { chance_after };

    /// Draws a number, and chooses by it and by who was taken before.
    fn choose(&mut self, enabled: &[u32]) -> u32 {
        self.state = next_state(self.state);
        let place = place_by(drawn(self.state), self.taken, enabled);
        self.taken = Some(enabled[place]);
        place as u32
    }
}
