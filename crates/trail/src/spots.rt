//! Where the variables stand, with their values apart from their places.
ghost use Rattle.std.specs.Prelude.{◌≡◌, ◌++◌, ◌-◌, ◌<◌, ◌≤◌, ◌^◌, ℕ, [], None, Some, OnErr, OnOk, length, replicate, slice_index_or, slice_set, take};
ghost use Rattle.std.specs.Option.{option_map};
ghost use Rattle.trail.specs.Spots.{place_of, value_of};

use super::entry::Spot;
use std::alloc::{AllocError, Global};
use std::marker::Model;

// Stands for no place.
const NOWHERE: u32 = u32::MAX;

/// Where each variable stands, if it is assigned, by its number less 1. Contracts see it as the list of that. Values
/// are looked up more often than places, and stand close together; each of both is found by one look.
#[derive(Debug, Drop)]
pub(crate) struct Spots {
    values: Vec<Option<bool>>,
    // The places of those that have a value; `NOWHERE` for all others, and there may be more behind them.
    places: Vec<u32>,
}

impl Model for Spots {
    ghost use Rattle.std.specs.Prelude.{◌≤◌, List, Option, length};
    ghost use Rattle.trail.specs.declared.entry.Spot.{Spot as Told};

    ghost Value = { List (Option Told) };

    ghost use Rattle.trail.specs.Spots.{ArePlaced, spots_of};

    ghost view = { λ s. spots_of s.values.items s.places.items };

    ghost invariant = { λ s. (length s.values.items ≤ length s.places.items) × (length s.values.items ≤ 4294967295)
        × ArePlaced s.values.items s.places.items };
}

impl Spots {
    // No spots. This takes no memory.
    pub(crate) fn new(alloc: Global) -> Self
        ensures { result ≡ [] }
    {
        Self {
            values: Vec::new(alloc),
            places: Vec::new(alloc),
        }
    }

    // How many variables have a spot.
    #[tactic(auto, using(crate::proofs::Spotting::spots_length))]
    pub(crate) fn len(&self) -> usize
        ensures value { result ≡ length self.now }
        ensures small { result < 2 ^ 32 }
    {
        self.values.len()
    }

    // The value of a variable, if it is assigned.
    #[tactic(auto, using(crate::proofs::Spotting::value_kept))]
    #[inline]
    pub(crate) fn value(&self, index: usize) -> Option<bool>
        ensures { result ≡ option_map value_of (slice_index_or self.now index None) }
    {
        match self.values.get(index) {
            Some(value) => *value,
            None => None,
        }
    }

    // The place of a variable, if it is assigned.
    #[inline]
    pub(crate) fn place(&self, index: usize) -> Option<usize>
        ensures { result ≡ option_map place_of (slice_index_or self.now index None) }
    {
        if index >= self.places.len() {
            return None;
        }
        let place = self.places[index];
        if place < NOWHERE {
            return Some(place as usize);
        }
        None
    }

    // Makes spots for so many variables, the new ones unassigned. With no memory all stays as it was; there is none for
    // more than 32 bits can count.
    #[tactic(auto, using(crate::proofs::Spotting::spots_front, crate::proofs::Spotting::spots_length))]
    pub(crate) fn widen(&mut self, count: usize) -> Result<(), AllocError>
        requires { length self.old ≤ count }
        ensures ok { OnOk result (self.new ≡ self.old ++ replicate (count - length self.old) None) }
        ensures err { OnErr result (self.new ≡ self.old) }
    {
        if count > u32::MAX as usize {
            return Err(AllocError);
        }
        widen_places(&mut self.places, count)?;
        self.values.resize(count, None)?;
        Ok(())
    }

    // Takes the spots behind the first ones away.
    pub(crate) fn truncate(&mut self, count: usize)
        requires { count ≤ length self.old }
        ensures { self.new ≡ take count self.old }
    {
        self.values.truncate(count);
        self.places.truncate(count);
    }

    // Says where a variable stands.
    #[tactic(auto, using(crate::proofs::Spotting::spot_set, crate::proofs::Spotting::spots_length))]
    pub(crate) fn set(&mut self, index: usize, spot: Spot)
        requires within { index < length self.old }
        requires place { spot.place < length self.old }
        ensures value { self.new ≡ slice_set self.old index (Some spot) }
        ensures small { length self.old < 2 ^ 32 }
    {
        self.values[index] = Some(spot.value);
        self.places[index] = spot.place as u32;
    }

    // Says that a variable is unassigned.
    #[tactic(auto, using(crate::proofs::Spotting::spots_length))]
    pub(crate) fn clear(&mut self, index: usize)
        requires { index < length self.old }
        ensures { self.new ≡ slice_set self.old index None }
    {
        self.values[index] = None;
        self.places[index] = NOWHERE;
    }
}

// Makes room for so many places.
fn widen_places(places: &mut Vec<u32>, count: usize) -> Result<(), AllocError>
    ensures long { OnOk result (count ≤ length places.new.items) }
    ensures front { take (length places.old.items) places.new.items ≡ places.old.items }
    ensures same { (k : ℕ) → slice_index_or places.new.items k 4294967295
        ≡ slice_index_or places.old.items k 4294967295 }
{
    if places.len() < count {
        places.resize(count, NOWHERE)?;
    }
    Ok(())
}
