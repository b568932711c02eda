//! The clocks that advanced in the newest step.

ghost use Rattle.std.specs.Prelude.{◌≡◌, ◌<◌, ◌≤◌, nat_lt, max, [], length, if◌then◌else◌, vec_capacity, IfOk};
ghost use Rattle.xk_collections.specs.NumberSets.{with_member};
ghost use Rattle.xk_registrations.specs.RegistrationChanges.{noted_in};

use std::alloc::AllocError;
use xk_collections::FewNumbers;

/// Puts a number into the set, or takes it out.
pub fn put_or_take(set: &mut FewNumbers, number: u32, is_in: bool)
    requires { number < set.old.room }
    ensures members { set.new.members ≡ with_member number is_in set.old.members }
    ensures room { set.new.room ≡ set.old.room }
{
    if is_in {
        set.insert(number);
    } else {
        set.remove(number);
    }
}

/// Takes all out of the set of those that belong to the newest step, where this one is newer. Which of the two steps is the newer.
pub fn turn_to(set: &mut FewNumbers, newest: u64, now: u64) -> u64
    ensures newer { result ≡ max newest now }
    ensures members { set.new.members ≡ if nat_lt newest now then [] else set.old.members }
    ensures room { set.new.room ≡ set.old.room }
{
    if now <= newest {
        return newest;
    }
    set.clear();
    now
}

/// The same numbers of steps, with as much room, from the memory that these are in.
pub fn copy_steps(steps: &Vec<u64>) -> Result<Vec<u64>, AllocError>
    ensures items { IfOk result (λ v. v.items ≡ steps.now.items) }
    ensures room { IfOk result (λ v. vec_capacity v ≡ vec_capacity steps.now) }
{
    let mut copy = Vec::with_capacity(*steps.allocator(), steps.capacity())?;
    for step in steps {
        copy.push_reserved(*step);
    }
    Ok(copy)
}

/// Lists the places at which the number stands, rising, in a list with nothing in it.
pub fn list_places(numbers: &[u64], number: u64, list: &mut Vec<u32>)
    requires nothing { list.old.items ≡ [] }
    requires few { length numbers.now ≤ 262144 }
    requires room { length numbers.now ≤ vec_capacity list.old }
    ensures items { list.new.items ≡ noted_in numbers.now number }
    ensures room { vec_capacity list.old ≤ vec_capacity list.new }
{
    for place in 0..numbers.len() {
        if numbers[place] == number {
            list.push_reserved(place as u32);
        }
    }
}
