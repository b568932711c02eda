//! What is known where a shared number is read or changed, or a number is printed.

ghost use Rattle.std.specs.Prelude.{◌≡◌, [], ◌∷◌, ◌++◌, if◌then◌else◌, IfOk, OnOk};
ghost use Rattle.xk_races.specs.Knowledge.{comes_before, is_sight, sight, sights_of};

use crate::deeds::{Deed, Part};
use crate::knowledge::Knowledge;
use crate::rows::{copied, number_at};
use std::alloc::{AllocError, Global};
use std::marker::Model;

/// A deed, its number, and what its activity knew at it.
#[derive(Drop)]
pub struct Sight {
    pub number: usize,
    pub deed: Deed,
    pub row: Vec<usize>,
}

impl Model for Sight {
    ghost use Rattle.xk_races.specs.Knowledge.{Sight as SightValue};

    ghost Value = { SightValue };

    ghost view = { λ s. record { number = s.number; deed = s.deed; row = s.row.items } };
}

/// Whether one came before another.
pub fn comes_before(x: &Sight, y: &Sight) -> bool
    ensures { result ≡ comes_before x.now y.now }
{
    x.number <= number_at(&y.row, x.deed.step.act as usize)
}

/// Adds a deed, if it is one of these.
fn push_if_sight(
    alloc: Global,
    list: &mut Vec<Sight>,
    number: usize,
    deed: &Deed,
    known: &Knowledge,
) -> Result<(), AllocError>
    ensures { OnOk result (list.new.items ≡ list.old.items
        ++ (if is_sight deed.now.part then sight number deed.now known.now ∷ [] else [])) }
{
    if matches!(deed.part, Part::Access(_) | Part::Print) {
        let row = copied(alloc, known.of(deed.step.act))?;
        list.push(Sight {
            number,
            deed: *deed,
            row,
        })?;
    }
    Ok(())
}

/// Those among the deeds of a run.
pub fn sights_of(alloc: Global, deeds: &[Deed]) -> Result<Vec<Sight>, AllocError>
    ensures { IfOk result (λ v. v.items ≡ sights_of deeds.now) }
{
    let mut known = Knowledge::new(alloc)?;
    let mut list = Vec::new(alloc);
    for (i, deed) in deeds.iter().enumerate() {
        known.take(alloc, i + 1, deed)?;
        push_if_sight(alloc, &mut list, i + 1, deed, &known)?;
    }
    Ok(list)
}
