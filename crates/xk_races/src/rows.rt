//! Rows of numbers, in which all that isn't there is 0.

ghost use Rattle.std.specs.Prelude.{◌≡◌, ℕ, [], suc, ◌-◌, ◌++◌, length, replicate, slice_set, IfOk, OnOk};
ghost use Rattle.xk_races.specs.Lists.{joined, number_at, row_at, with_at};
ghost use Rattle.xk_races.specs.Knowledge.{told_to};

use std::alloc::{AllocError, Global};
use std::marker::Model;
use std::mem;

/// A row.
#[derive(Drop)]
pub struct Row {
    numbers: Vec<usize>,
}

impl Model for Row {
    ghost use Rattle.std.specs.Prelude.{ℕ, List};

    ghost Value = { List ℕ };

    ghost view = { λ r. r.numbers.items };
}

/// Number k of a row.
pub fn number_at(row: &[usize], k: usize) -> usize
    ensures { result ≡ number_at row.now k }
{
    match row.get(k) {
        Some(number) => *number,
        None => 0,
    }
}

/// Row k.
pub fn row_at(rows: &[Row], k: usize) -> &[usize]
    ensures { result.now ≡ row_at rows.now k }
{
    match rows.get(k) {
        Some(row) => &row.numbers,
        None => &[],
    }
}

/// Adds a 0 so many times.
fn push_zeros(numbers: &mut Vec<usize>, count: usize) -> Result<(), AllocError>
    ensures { OnOk result (numbers.new.items ≡ numbers.old.items ++ replicate count 0) }
{
    for _ in 0..count {
        numbers.push(0)?;
    }
    Ok(())
}

/// Number k becomes x.
pub fn set_number(numbers: &mut Vec<usize>, k: u32, x: usize) -> Result<(), AllocError>
    ensures { OnOk result (numbers.new.items ≡ with_at 0 numbers.old.items k x) }
{
    let place = k as usize;
    push_zeros(numbers, (place + 1).saturating_sub(numbers.len()))?;
    numbers[place] = x;
    Ok(())
}

/// A row of the greater ones of each two numbers.
fn joined(alloc: Global, row: &[usize], other: &[usize]) -> Result<Row, AllocError>
    ensures { IfOk result (λ r. r ≡ joined row.now other.now) }
{
    let mut numbers = Vec::new(alloc);
    for k in 0..row.len().max(other.len()) {
        numbers.push(number_at(row, k).max(number_at(other, k)))?;
    }
    Ok(Row { numbers })
}

/// Adds an empty row so many times.
fn push_empty(alloc: Global, rows: &mut Vec<Row>, count: usize) -> Result<(), AllocError>
    ensures { OnOk result (rows.new.items ≡ rows.old.items ++ replicate count []) }
{
    for _ in 0..count {
        rows.push(Row {
            numbers: Vec::new(alloc),
        })?;
    }
    Ok(())
}

/// Row k becomes another one, where there is such a row.
fn replace(rows: &mut Vec<Row>, k: usize, row: Row)
    ensures { rows.new.items ≡ slice_set rows.old.items k row }
{
    if let Some(place) = rows.get_mut(k) {
        drop(mem::replace(place, row));
    }
}

/// There are rows up to number k.
#[tactic(auto, using(crate::proofs::GrowthLemmas::grown, crate::proofs::GrowthLemmas::long_enough))]
fn grow(alloc: Global, rows: &mut Vec<Row>, k: usize) -> Result<(), AllocError>
    ensures { OnOk result (rows.new.items ≡ rows.old.items
        ++ replicate (suc k - length rows.old.items) []) }
{
    if k < rows.len() {
        return Ok(());
    }
    push_empty(alloc, rows, k - rows.len())?;
    rows.push(Row {
        numbers: Vec::new(alloc),
    })?;
    Ok(())
}

/// Number x becomes n in row k.
pub fn set_in(
    alloc: Global,
    rows: &mut Vec<Row>,
    k: u32,
    x: u32,
    n: usize,
) -> Result<(), AllocError>
    ensures { OnOk result (rows.new.items ≡ with_at [] rows.old.items k
        (with_at 0 (row_at rows.old.items k) x n)) }
{
    let mut numbers = copied(alloc, row_at(rows, k as usize))?;
    set_number(&mut numbers, x, n)?;
    grow(alloc, rows, k as usize)?;
    replace(rows, k as usize, Row { numbers });
    Ok(())
}

/// A copy of the numbers.
pub fn copied(alloc: Global, numbers: &[usize]) -> Result<Vec<usize>, AllocError>
    ensures { IfOk result (λ v. v.items ≡ numbers.now) }
{
    let mut same = Vec::with_capacity(alloc, numbers.len())?;
    for n in numbers {
        same.push(*n)?;
    }
    Ok(same)
}

/// Row k learns what another row knows.
pub fn tell(alloc: Global, rows: &mut Vec<Row>, k: usize, row: &[usize]) -> Result<(), AllocError>
    ensures { OnOk result (rows.new.items ≡ told_to rows.old.items k row.now) }
{
    let joined = joined(alloc, row_at(rows, k), row)?;
    grow(alloc, rows, k)?;
    replace(rows, k, joined);
    Ok(())
}
