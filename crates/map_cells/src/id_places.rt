//! The places of ids, found in memory for the places alone, however many ids were given.

ghost use Rattle.std.specs.Prelude.{◌≡◌, ◌≢◌, ◌<◌, ◌+◌, ◌^◌, ℕ, List, [], ◌∷◌, ◌++◌, length, slice_set, IfOk};
ghost use Rattle.map_cells.specs.IdPlaces.{PlaceList, chain_of, first_of, found, link_at, place_before, AreWithin};
ghost use Rattle.map_cells.specs.Places.{no_place, place_at};

use std::alloc::{AllocError, Global};
use std::marker::Model;

/// No place: the end of a chain.
const NO_PLACE: u32 = u32::MAX;

/// What a place has while a cell is there: the cell's id, and the place of an older one.
#[derive(Clone, Copy, Debug, PartialEq, Eq)]
pub struct Link {
    /// The id.
    pub id: u64,
    /// The next place of the chain, or `u32::MAX`.
    pub next: u32,
}

/// The places of ids that are given one after the other, from 0 on. Contracts see a `PlaceList`. Ids with the same low bits are in one chain of
/// places, the newest first.
#[derive(Drop)]
pub(crate) struct IdPlaces {
    /// How many ids were given.
    given: usize,
    /// The first place of each chain.
    firsts: Vec<u32>,
    links: Vec<Link>,
}

impl Model for IdPlaces {
    ghost use Rattle.map_cells.specs.IdPlaces.{PlaceList, place_list, AreChained};

    ghost Value = { PlaceList };

    ghost view = { λ x. place_list x.given x.firsts.items x.links.items };

    ghost invariant = { λ x. AreChained x.given x.firsts.items x.links.items };
}

impl IdPlaces {
    /// No ids, and room for `places` places. Fails only for lack of memory; no other call takes any.
    pub(crate) fn new(alloc: Global, places: u32) -> Result<Self, AllocError>
        requires { places < no_place }
        ensures { IfOk result (λ x. x ≡ record { room = places; places = [] }) }
    {
        Ok(IdPlaces {
            given: 0,
            firsts: vec![in alloc; NO_PLACE; chain_count(places)]?,
            links: vec![in alloc; Link {
                id: 0,
                next: NO_PLACE
            }; places as usize]?,
        })
    }

    /// How many ids were given.
    pub(crate) fn len(&self) -> usize
        ensures { result ≡ length self.now.places }
    {
        self.given
    }

    /// The place of an id that has one.
    #[inline(always)]
    pub(crate) fn place(&self, id: u64) -> usize
        requires { place_at self.now.places id ≢ no_place }
        ensures { result ≡ place_at self.now.places id }
    {
        let first = first_of(&self.firsts, id);
        place_from(&self.links, self.given, id, first) as usize
    }

    /// Gives the next id a place that no id has.
    pub(crate) fn push(&mut self, place: u32)
        requires place { place < self.old.room }
        requires unused { (id : ℕ) → place_at self.old.places id ≢ place }
        requires few { length self.old.places + 1 < 2 ^ 64 }
        ensures { self.new ≡ record self.old { places = self.old.places ++ place ∷ [] } }
    {
        let id = self.given as u64;
        let chain = chain_of(&self.firsts, id);
        let next = first_of(&self.firsts, id);
        self.links[place as usize] = Link { id, next };
        self.firsts[chain] = place;
        self.given += 1;
    }

    /// Takes an id its place, and returns it.
    pub(crate) fn take(&mut self, id: u64) -> u32
        requires { place_at self.old.places id ≢ no_place }
        ensures place { result ≡ place_at self.old.places id }
        ensures taken { self.new ≡ record self.old { places = slice_set self.old.places id no_place } }
    {
        let chain = chain_of(&self.firsts, id);
        let first = first_of(&self.firsts, id);
        let link = link_at(&self.links, first);
        if link.id == id {
            self.firsts[chain] = link.next;
            return first;
        }
        let before = place_before(&self.links, self.given, id, first);
        let link = link_at(&self.links, before);
        let next = link_at(&self.links, link.next).next;
        self.links[before as usize] = Link { id: link.id, next };
        link.next
    }
}

/// The place of an id that is in the chain from a place on, among its first `most` places.
#[inline(always)]
fn place_from(links: &[Link], most: usize, id: u64, first: u32) -> u32
    requires within { AreWithin most links.now first }
    requires there { found most links.now id first ≢ no_place }
    ensures { result ≡ found most links.now id first }
{
    let mut place = first;
    'chain: for passed in 0..most {
        let _ = passed;
        let link = links[place as usize];
        if link.id == id {
            return place;
        }
        place = link.next;
    }
    unreachable!()
}

/// The place in front of that of an id, which is in the chain from a place on, but not at this place.
fn place_before(links: &[Link], most: usize, id: u64, first: u32) -> u32
    requires within { AreWithin most links.now first }
    requires there { found most links.now id first ≢ no_place }
    requires behind { (link_at links.now first).id ≢ id }
    ensures { result ≡ place_before most links.now id first }
{
    let mut before = first;
    'chain: for passed in 0..most {
        let _ = passed;
        let next = links[before as usize].next;
        if links[next as usize].id == id {
            return before;
        }
        before = next;
    }
    unreachable!()
}

/// The chain of an id. There are as many chains as a power of two.
fn chain_of(firsts: &[u32], id: u64) -> usize
    requires { 0 < length firsts.now }
    ensures chain { result ≡ chain_of (length firsts.now) id }
    ensures within { result < length firsts.now }
{
    id as usize & (firsts.len() - 1)
}

/// The first place of an id's chain.
#[inline(always)]
fn first_of(firsts: &[u32], id: u64) -> u32
    requires { 0 < length firsts.now }
    ensures { result ≡ first_of firsts.now id }
{
    firsts[chain_of(firsts, id)]
}

/// What a place has.
fn link_at(links: &[Link], place: u32) -> Link
    requires { place < length links.now }
    ensures { result ≡ link_at links.now place }
{
    links[place as usize]
}

/// How many chains there are: a power of two, at least twice as many as places.
fn chain_count(places: u32) -> usize
    ensures some { 0 < result }
    ensures few { result < 2 ^ 36 }
{
    let mut count = 1;
    for _ in 0..34 {
        if count < 2 * places as usize {
            count *= 2;
        }
    }
    count
}
