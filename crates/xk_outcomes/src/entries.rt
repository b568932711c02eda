//! Those that were found, of most of which only how they were found is kept: from which, and by which way.

ghost use Rattle.std.specs.Prelude.{◌≡◌, ◌<◌, ◌⊎◌, ◌++◌, ◌∷◌, [], OnOk, true, false, length, reverse, slice_get};
ghost use Rattle.std.specs.Prelude.{slice_set, IfNone, IfOk, IfSome, OnErr, Some, List};
ghost use Rattle.xk_types.specs.Bound.{steps_bound};
ghost use Rattle.xk_types.specs.Schedule.{all_ended};
ghost use Rattle.xk_readings.specs.declared.edge.Edge.{Edge as Link};
ghost use Rattle.xk_readings.specs.Graphs.{graph};
ghost use Rattle.xk_readings.specs.Readings.{IsLongest};
ghost use Rattle.xk_ranks.specs.Reads.{IsCounting};
ghost use Rattle.xk_outcomes.specs.Alikeness.{counted};
ghost use Rattle.xk_outcomes.specs.Checkpoints.{IsCheckpoint};
ghost use Rattle.xk_outcomes.specs.Entries.{first_entry};
ghost use Rattle.xk_outcomes.specs.Found.{FoundValue, along, first_found, through};
ghost use Rattle.xk_outcomes.specs.Ways.{steps_of, way_of};
ghost use Rattle.xk_outcomes.specs.Links.{AreLinked, ends};
ghost use Rattle.xk_outcomes.specs.Listing.{ArePlayed};
ghost use Rattle.xk_outcomes.specs.Search.{AreDifferent, AreFound, AreSettled, Has, IsAdded, IsAt, IsFound, IsFoundBy};
ghost use Rattle.xk_outcomes.specs.Search.{IsGrown, IsThere, found_digest};

use crate::checkpoint::{Checkpoint, ROOM, is_far, room_beside};
use crate::counts::Counts;
use crate::found::{Found, beginning};
use crate::order::{Order, key_of};
use crate::run::Run;
use std::alloc::{AllocError, Global};
use std::marker::Model;
use xk_core::Core;
use xk_digests::{Digests, are_same_numbers, with_numbers};

/// How one was found: by a way from one before it.
#[derive(Clone, Copy, Debug)]
pub struct Edge {
    /// The number of the one before.
    pub from: usize,
    /// The number of the way.
    pub way: usize,
}

/// Steps from one that was found to another.
#[derive(Drop)]
struct Way {
    // where they begin
    from: usize,
    // by activities of these ranks, the last one first
    ranks: Vec<u32>,
}

/// Those that were found, numbered from 0. The first is found by private steps alone. A core is kept with the first, and
/// with one to which many steps lead from where one is kept: whoever wants to look at another is led there again from
/// such a checkpoint. No two are in worlds that are told to be alike in what counts, or in which all have ended, unless the
/// order tells them apart by what was printed by then.
#[derive(Drop)]
pub struct Entries<'m> {
    start: Core<'m>,
    order: Order,
    counts: Counts<'m>,
    // for each of them the ranks of the activities that take its steps
    ways: Vec<Vec<u32>>,
    edges: Vec<Edge>,
    digests: Digests,
    // of each whether all have ended in it
    over: Vec<bool>,
    // the first one, and those that are far from the checkpoint before them, as long as there is room
    checkpoints: Vec<Checkpoint<'m>>,
    // what is left of it
    room: u64,
    // of each the place of the last checkpoint on the way there
    nearest: Vec<usize>,
}

impl<'m> Model for Entries<'m> {
    ghost use Rattle.xk_outcomes.specs.Entries.{AreEntries, EntriesValue, led_by};
    ghost use Rattle.xk_outcomes.specs.Ways.{ways_in};

    ghost Value = { EntriesValue };

    ghost view = { λ e. record {
      start = e.start;
      like = record { order = e.order; counts = e.counts };
      ways = ways_in e.ways.items;
      all = led_by (ways_in e.ways.items) e.start e.edges.items;
    } };

    ghost invariant = { λ e. AreEntries e.start
        (record { order = e.order; counts = e.counts }) (ways_in e.ways.items) e.edges.items
        e.digests e.over.items e.checkpoints.items };
}

/// The digest of one.
fn found_digest(
    alloc: Global,
    order: Order,
    counts: &Counts<'_>,
    x: &Found<'_>,
) -> Result<u64, AllocError>
    ensures { IfOk result (λ digest. digest
        ≡ found_digest (record { order = order; counts = counts.now }) x.now) }
{
    let key = key_of(alloc, order, &x.printed)?;
    if x.core.ended() {
        return Ok(with_numbers(0, &key));
    }
    counts.digest_of(alloc, &x.core, &key)
}

/// Whether from the worlds of the two the same can happen, and nothing that was printed by then tells them apart.
fn is_same(
    alloc: Global,
    order: Order,
    counts: &Counts<'_>,
    x: &Found<'_>,
    new: &Found<'_>,
) -> Result<bool, AllocError>
    requires { x.now.core.module_run ≡ new.now.core.module_run }
    ensures yes { IfOk result (λ same. same ≡ true
        → IsAt (record { order = order; counts = counts.now }) x.now
        new.now.core.world new.now.printed) }
    ensures no { IfOk result (λ same. same ≡ false
        → IsAt (record { order = order; counts = counts.now }) x.now
        new.now.core.world new.now.printed → ⊥) }
{
    let key = key_of(alloc, order, &x.printed)?;
    let new_key = key_of(alloc, order, &new.printed)?;
    if !are_same_numbers(&key, &new_key) {
        return Ok(false);
    }
    if new.core.ended() && x.core.ended() {
        return Ok(true);
    }
    let same = counts.are_alike(alloc, &new.core, &x.core)?;
    Ok(same)
}

/// Another place stands at a number, if one does.
fn replace(places: &mut Vec<usize>, number: usize, place: usize)
    ensures { places.new.items ≡ slice_set places.old.items number place }
{
    if let Some(old) = places.get_mut(number) {
        *old = place;
    }
}

/// Puts the first one behind these: its digest, whether all have ended in it, and itself as a checkpoint.
fn put_first<'m>(
    alloc: Global,
    order: Order,
    start: &Core<'m>,
    counts: &Counts<'m>,
    digests: &mut Digests,
    over: &mut Vec<bool>,
    checkpoints: &mut Vec<Checkpoint<'m>>,
) -> Result<(), AllocError>
    requires { start.now.world.steps ≡ 0 }
    ensures digests { OnOk result (digests.new ≡ digests.old
        ++ found_digest (record { order = order; counts = counts.now })
        (first_found start.now) ∷ []) }
    ensures over { OnOk result (over.new.items ≡ over.old.items
        ++ all_ended (first_found start.now).core.world ∷ []) }
    ensures checkpoints { OnOk result (checkpoints.new.items ≡ checkpoints.old.items
        ++ record { number = 0; found = first_found start.now } ∷ []) }
{
    let found = beginning(alloc, start)?;
    let digest = found_digest(alloc, order, counts, &found)?;
    digests.push(digest)?;
    over.push(found.core.ended())?;
    match checkpoints.push(Checkpoint { number: 0, found }) {
        Ok(()) => Ok(()),
        Err(_) => Err(AllocError),
    }
}

impl<'m> Entries<'m> {
    /// The first one alone. Err where memory was refused.
    pub fn open(alloc: Global, order: Order, start: Core<'m>) -> Result<Entries<'m>, AllocError>
        requires { start.world.steps ≡ 0 }
        ensures first { IfOk result (λ e. e ≡ first_entry e.like start.entry) }
        ensures told { IfOk result (λ e. e.like.order ≡ order) }
    {
        let counts = Counts::of(alloc, start.module())?;
        let mut digests = Digests::new(alloc);
        let mut over = Vec::new(alloc);
        let mut nearest = Vec::new(alloc);
        let mut checkpoints = Vec::new(alloc);
        nearest.push(0)?;
        put_first(
            alloc,
            order,
            &start,
            &counts,
            &mut digests,
            &mut over,
            &mut checkpoints,
        )?;
        Ok(Entries {
            start,
            order,
            counts,
            ways: Vec::new(alloc),
            edges: Vec::new(alloc),
            digests,
            over,
            checkpoints,
            room: ROOM,
            nearest,
        })
    }

    /// How many they are.
    pub fn len(&self) -> usize
        ensures count { result ≡ length self.now.all }
        ensures found { AreFound self.now.start self.now.all }
        ensures settled { AreSettled self.now.start self.now.all }
        ensures different { AreDifferent self.now.like self.now.all }
        // By tables that have all that counts.
        ensures counting { IsCounting self.now.start.module_run (counted self.now.like) }
    {
        // The first one, and one for each edge.
        self.edges.len() + 1
    }

    /// Of each whether all have ended in it.
    pub fn ends(&self) -> &[bool]
        ensures { result.now ≡ ends self.now.all }
    {
        &self.over
    }

    /// How many steps a run has at most: no more links stand along one that is read.
    pub fn longest(&self) -> u64
        ensures bound { result ≡ steps_bound self.now.start.module_run }
        ensures longest { (links : List Link)
            → AreLinked (counted self.now.like) self.now.start.module_run self.now.ways self.now.all
            links
            → IsLongest (graph links (ends self.now.all)) result }
        // What is printed along links to where all have ended is printed by the steps of their ways.
        ensures played { (links : List Link)
            → AreLinked (counted self.now.like) self.now.start.module_run self.now.ways self.now.all
            links
            → ArePlayed self.now.start self.now.ways self.now.all links }
    {
        let verified = self.start.module();
        // For the law: the module is accepted.
        let _accepted = verified.module();
        verified.steps()
    }

    /// The ranks on the way of a number, if there is one.
    fn way(&self, number: usize) -> &[u32]
        ensures { result.now ≡ way_of self.now.ways number }
    {
        match self.ways.get(number) {
            Some(way) => way,
            None => &[],
        }
    }

    /// Puts the ranks on a way behind these, the last one first.
    fn put_backward(
        &self,
        alloc: Global,
        number: usize,
        ranks: &mut Vec<u32>,
    ) -> Result<(), AllocError>
        ensures { OnOk result (ranks.new.items
            ≡ ranks.old.items ++ reverse (way_of self.now.ways number)) }
    {
        let mut way = self.way(number).to_vec(alloc)?;
        way.reverse();
        ranks.extend_from_slice(&way)?;
        Ok(())
    }

    /// The ranks on ways that are gone one after another.
    pub fn steps(&self, alloc: Global, ways: &[usize]) -> Result<Vec<u32>, AllocError>
        ensures { IfOk result (λ ranks. ranks.items ≡ steps_of self.now.ways ways.now) }
    {
        let mut ranks = Vec::new(alloc);
        for number in ways {
            ranks.extend_from_slice(self.way(*number))?;
        }
        Ok(ranks)
    }

    /// Adds a way. Its number. Err where memory was refused: nothing is added then.
    pub fn add_way(&mut self, way: Vec<u32>) -> Result<usize, AllocError>
        ensures start { self.new.start ≡ self.old.start }
        ensures like { self.new.like ≡ self.old.like }
        ensures all { self.new.all ≡ self.old.all }
        ensures added { IfOk result (λ number. (number ≡ length self.old.ways)
            × (self.new.ways ≡ self.old.ways ++ way.items ∷ [])) }
        ensures same { OnErr result (self.new.ways ≡ self.old.ways) }
    {
        let number = self.ways.len();
        self.ways.reserve(1)?;
        self.ways.push_reserved(way);
        Ok(number)
    }

    /// The way to one from another that stands on it, or else from the first.
    fn way_to(&self, alloc: Global, number: usize, stop: usize) -> Result<Way, AllocError>
        requires { number < length self.now.all }
        ensures from { IfOk result (λ way. (way.from ≡ 0) ⊎ (way.from ≡ stop)) }
        ensures leads { IfOk result (λ way. (x : FoundValue)
            → slice_get self.now.all way.from ≡ Some x
            → slice_get self.now.all number ≡ Some (along way.ranks.items x)) }
    {
        let mut ranks = Vec::new(alloc);
        let mut at = number;
        while at > 0 && at != stop {
            let edge = self.edges[at - 1];
            self.put_backward(alloc, edge.way, &mut ranks)?;
            at = edge.from;
        }
        Ok(Way { from: at, ranks })
    }

    /// The last checkpoint on the way to the one of a number.
    fn checkpoint(&self, number: usize) -> &Checkpoint<'m>
        ensures { IsCheckpoint self.now.all result.now }
    {
        let last = self.checkpoints.len() - 1;
        let place = self.nearest.get(number).copied().unwrap_or(0);
        &self.checkpoints[place.min(last)]
    }

    /// A copy of what a checkpoint keeps, if it is the one of a number, or else of the first one.
    fn copy_at(
        &self,
        alloc: Global,
        checkpoint: &Checkpoint<'m>,
        number: usize,
    ) -> Result<Found<'m>, AllocError>
        requires checkpoint { IsCheckpoint self.now.all checkpoint.now }
        requires number { (number ≡ 0) ⊎ (number ≡ checkpoint.now.number) }
        ensures { IfOk result (λ x. slice_get self.now.all number ≡ Some x) }
    {
        if number == checkpoint.number {
            return checkpoint.found.copy(alloc);
        }
        self.checkpoints[0].found.copy(alloc)
    }

    /// The one of a number: a core is led there again from a checkpoint.
    pub fn get(&self, alloc: Global, number: usize) -> Result<Found<'m>, AllocError>
        requires { number < length self.now.all }
        ensures { IfOk result (λ x. slice_get self.now.all number ≡ Some x) }
    {
        let checkpoint = self.checkpoint(number);
        let way = self.way_to(alloc, number, checkpoint.number)?;
        let mut x = self.copy_at(alloc, checkpoint, way.from)?;
        match x.go_along(way.ranks) {
            Ok(()) => Ok(x),
            Err(_) => Err(AllocError),
        }
    }

    /// Whether all have ended in the one of a number.
    pub fn is_over(&self, number: usize) -> bool
        requires { number < length self.now.all }
        ensures { (x : FoundValue) → slice_get self.now.all number ≡ Some x
            → result ≡ all_ended x.core.world }
    {
        self.over[number]
    }

    /// A run to the one of a number.
    pub fn run_to(&self, alloc: Global, number: usize) -> Result<Run<'m>, AllocError>
        requires { number < length self.now.all }
        ensures to { IfOk result (λ run. slice_get self.now.all number ≡ Some run.to) }
        ensures found { IfOk result
            (λ run. IsFoundBy self.now.start run.schedule.items run.to) }
    {
        let way = self.way_to(alloc, number, 0)?;
        let mut run = Run::begin(alloc, &self.start)?;
        match run.go_along(way.ranks) {
            Ok(()) => Ok(run),
            Err(_) => Err(AllocError),
        }
    }

    /// The run by steps of activities of these ranks from the first one, and private steps behind each.
    pub fn led(&self, alloc: Global, ranks: &[u32]) -> Result<Run<'m>, AllocError>
        ensures to { IfOk result
            (λ run. run.to ≡ through ranks.now (first_found self.now.start)) }
        ensures found { IfOk result
            (λ run. IsFoundBy self.now.start run.schedule.items run.to) }
    {
        let mut run = Run::begin(alloc, &self.start)?;
        match run.go_through(ranks) {
            Ok(()) => Ok(run),
            Err(_) => Err(AllocError),
        }
    }

    /// Whether the new one is the same as the one of a number, to which another core is led.
    fn is_same_at(&self, alloc: Global, number: usize, new: &Found<'_>) -> Result<bool, AllocError>
        requires number { number < length self.now.all }
        requires found { IsFound self.now.start new.now }
        ensures yes { IfOk result (λ same. same ≡ true
            → IsThere self.now.like self.now.all new.now.core.world new.now.printed number) }
        ensures no { IfOk result (λ same. same ≡ false
            → (x : FoundValue) → slice_get self.now.all number ≡ Some x
            → IsAt self.now.like x new.now.core.world new.now.printed → ⊥) }
    {
        // For its module: they are found.
        let _count = self.len();
        let x = self.get(alloc, number)?;
        let same = is_same(alloc, self.order, &self.counts, &x, new)?;
        Ok(same)
    }

    /// The number of the one that is the same, which has such a digest, if one is. A core is led to those of the same digest alone.
    fn known(
        &self,
        alloc: Global,
        new: &Found<'_>,
        digest: u64,
    ) -> Result<Option<usize>, AllocError>
        requires digest { digest ≡ found_digest self.now.like new.now }
        requires found { IsFound self.now.start new.now }
        ensures yes { IfOk result (λ known. IfSome known
            (IsThere self.now.like self.now.all new.now.core.world new.now.printed)) }
        ensures no { IfOk result (λ known. IfNone known
            (Has self.now.like self.now.all new.now.core.world new.now.printed → ⊥)) }
    {
        let mut at = self.digests.last(digest);
        while at > 0 {
            let number = at - 1;
            if self.is_same_at(alloc, number, new)? {
                return Ok(Some(number));
            }
            at = self.digests.before(number);
        }
        Ok(None)
    }

    /// Adds what a way leads to from the one of a number, if none is the same yet. The number of the one that is. Err where memory was
    /// refused: nothing is added then.
    pub fn add(
        &mut self,
        alloc: Global,
        from: usize,
        way: usize,
        new: &Found<'_>,
    ) -> Result<usize, AllocError>
        requires way { way < length self.old.ways }
        requires led { (x : FoundValue) × (slice_get self.old.all from ≡ Some x)
            × (new.now ≡ through (way_of self.old.ways way) x) }
        ensures start { self.new.start ≡ self.old.start }
        ensures like { self.new.like ≡ self.old.like }
        ensures ways { self.new.ways ≡ self.old.ways }
        ensures grown { IsGrown self.old.all self.new.all }
        ensures added { IfOk result (IsAdded self.old.like self.old.all self.new.all new.now) }
        ensures same { OnErr result (self.new.all ≡ self.old.all) }
    {
        let digest = found_digest(alloc, self.order, &self.counts, new)?;
        let known = self.known(alloc, new, digest)?;
        match known {
            Some(number) => return Ok(number),
            None => {}
        }
        let number = self.len();
        let nearest = self.nearest.get(from).copied().unwrap_or(0);
        self.edges.reserve(1)?;
        self.over.reserve(1)?;
        self.nearest.reserve(1)?;
        self.digests.push(digest)?;
        self.edges.push_reserved(Edge { from, way });
        self.over.push_reserved(new.core.ended());
        self.nearest.push_reserved(nearest);
        Ok(number)
    }

    /// Keeps the one of a number as a checkpoint, if it is far from the one before it and there is room. Err where memory was refused: it
    /// isn't kept then.
    pub fn keep(&mut self, number: usize, x: Found<'m>) -> Result<(), AllocError>
        requires { slice_get self.old.all number ≡ Some x }
        ensures { self.new ≡ self.old }
    {
        let room = room_beside(self.room, &x);
        if room == 0 || !is_far(&self.checkpoint(number).found, &x) {
            return Ok(());
        }
        let place = self.checkpoints.len();
        self.checkpoints.reserve(1)?;
        self.checkpoints
            .push_reserved(Checkpoint { number, found: x });
        replace(&mut self.nearest, number, place);
        self.room = room;
        Ok(())
    }
}
