ghost use Rattle.std.specs.Prelude.{◌≡◌, ◌≢◌, ◌⊎◌, ◌≤◌, ◌<◌, ◌+◌, ◌++◌, length, map, IfOk, OnOk, OnErr, IfErr, MatchOption, vec_len};
ghost use Rattle.std.specs.List.{remove, All};
ghost use Rattle.branch_pool.specs.Deques.{new_end};
ghost use Rattle.branch_pool.specs.Views.{after_push, after_pop, Steals, StealsSome, door_to, AreLanes};

use crate::ends::{Door, Owner};
use std::alloc::{AllocError, Global};
use std::marker::Model;
use std::sync::Wait;

/// A worker's own deque, with a door to the deque of each other lane.
#[derive(Drop)]
pub struct Lane<I> {
    own: Owner<I>,
    doors: Vec<Door<I>>,
    place: usize,
}

impl<I> Model for Lane<I> {
    ghost use Rattle.std.specs.Prelude.{◌≤◌, length};
    ghost use Rattle.branch_pool.specs.Views.{View, view_is};

    ghost Value = { View I };

    ghost view = { λ l. view_is l.own l.doors.items l.place };

    ghost invariant = { λ l. l.place ≤ length l.doors.items };
}

impl<I> Lane<I> {
    /// Adds an item at the back. It comes back where the deque takes no more.
    pub fn push(&mut self, item: I) -> Result<(), I>
        ensures pushed { OnOk result (self.new ≡ after_push self.old item) }
        ensures handed_back { IfErr result (λ x. x ≡ item) }
        ensures unchanged { OnErr result (self.new ≡ self.old) }
    {
        self.own.push(item)
    }

    /// Takes the first item. None says that there was none at one moment.
    pub fn pop(&mut self) -> Option<I>
        ensures { MatchOption result (self.new ≡ self.old) (λ x. self.new ≡ after_pop self.old x) }
    {
        self.own.pop()
    }

    /// Takes the first item of another lane. None says that there was none at one moment.
    pub fn steal<R: Wait>(&mut self, rt: &R, from: usize) -> Option<I>
        requires other { from ≢ self.old.place }
        requires there { from ≤ length self.old.doors }
        ensures { MatchOption result (self.new ≡ self.old) (λ x. Steals self.old from x self.new) }
    {
        let at = door_to(self.place, from);
        let door = &mut self.doors[at];
        door.steal(rt)
    }

    /// Takes the first item of the first other lane that has one, from the lane behind this one on and round to it.
    pub fn steal_any<R: Wait>(&mut self, rt: &R) -> Option<I>
        ensures { MatchOption result (self.new ≡ self.old) (λ x. StealsSome self.old x self.new) }
    {
        let place = self.place();
        let lanes = self.lanes();
        match self.steal_among(rt, place + 1, lanes) {
            Some(item) => Some(item),
            None => self.steal_among(rt, 0, place),
        }
    }

    // The same of the lanes from one place up to another.
    fn steal_among<R: Wait>(&mut self, rt: &R, first: usize, end: usize) -> Option<I>
        requires beside { (end ≤ self.old.place) ⊎ (self.old.place < first) }
        requires there { end ≤ length self.old.doors + 1 }
        ensures { MatchOption result (self.new ≡ self.old) (λ x. StealsSome self.old x self.new) }
    {
        for from in first..end {
            if let Some(item) = self.steal(rt, from) {
                return Some(item);
            }
        }
        None
    }

    /// Its place among the lanes.
    pub fn place(&self) -> usize
        ensures place { result ≡ self.now.place }
        ensures within { result ≤ length self.now.doors }
    {
        self.place
    }

    /// How many lanes there are.
    pub fn lanes(&self) -> usize
        ensures { result ≡ length self.now.doors + 1 }
    {
        self.doors.len() + 1
    }
}

fn door_to(place: usize, from: usize) -> usize
    ensures { result ≡ door_to place from }
{
    if from < place {
        from
    } else {
        from.saturating_sub(1)
    }
}

/// As many lanes as that, each with a door to each other.
pub fn lanes<I: Drop>(alloc: Global, count: usize) -> Result<Vec<Lane<I>>, AllocError>
    ensures { IfOk result (λ v. AreLanes count v.items) }
{
    let owners = owners(alloc, count)?;
    let all_doors = doors(alloc, owners.as_slice())?;
    let mut lanes = Vec::new(alloc);
    for own in owners {
        let place = lanes.len();
        let doors = doors_beside(alloc, all_doors.as_slice(), place)?;
        lanes.push(Lane { own, doors, place })?;
    }
    Ok(lanes)
}

fn owners<I: Drop>(alloc: Global, count: usize) -> Result<Vec<Owner<I>>, AllocError>
    ensures count { IfOk result (λ v. vec_len v ≡ count) }
    ensures new { IfOk result (λ v. All (λ o. o ≡ new_end o.deque) v.items) }
{
    let mut owners = Vec::new(alloc);
    for _ in 0..count {
        owners.push(Owner::new(alloc)?)?;
    }
    Ok(owners)
}

// A door to each deque.
fn doors<I: Drop>(alloc: Global, owners: &[Owner<I>]) -> Result<Vec<Door<I>>, AllocError>
    ensures { IfOk result (λ v. v.items ≡ map (λ o. new_end o.deque) owners.now) }
{
    let mut doors = Vec::new(alloc);
    for owner in owners {
        doors.push(owner.door()?)?;
    }
    Ok(doors)
}

// New doors to all deques but that at a place.
fn doors_beside<I: Drop>(
    alloc: Global,
    doors: &[Door<I>],
    place: usize,
) -> Result<Vec<Door<I>>, AllocError>
    requires { place < length doors.now }
    ensures { IfOk result (λ v. v.items ≡ map (λ d. new_end d.deque) (remove doors.now place)) }
{
    let mut beside = Vec::new(alloc);
    add_doors(&mut beside, &doors[..place])?;
    add_doors(&mut beside, &doors[place + 1..])?;
    Ok(beside)
}

fn add_doors<I: Drop>(beside: &mut Vec<Door<I>>, doors: &[Door<I>]) -> Result<(), AllocError>
    ensures { OnOk result
        (beside.new.items ≡ beside.old.items ++ map (λ d. new_end d.deque) doors.now) }
{
    for door in doors {
        beside.push(door.another()?)?;
    }
    Ok(())
}
