// The entries of a store in order, and where each group is found, so that a fetch walks over no row.
ghost use Rattle.std.specs.Prelude.{◌≡◌, ◌+◌, ◌^◌, ◌<◌, ◌≤◌, [], ◌∷◌, ◌++◌, length, sum, slice_get, Some, OnOk, vec_len, vec_capacity};
ghost use Rattle.archive_store.specs.InsideListing.{HasRoomFor};
ghost use Rattle.archive_store.specs.InsideRows.{group_count, homes_of, homes_from, places_in, places_at, HasPlaces, HasHome};

use crate::row::{Home, Row, Stored};
use entry_codec::Place;
use std::alloc::{AllocError, Global};
use std::marker::Model;

/// The rows of a store, and the home of each group.
#[derive(Drop)]
pub(crate) struct Catalogue {
    rows: Vec<Row>,
    homes: Vec<Home>,
}

impl Model for Catalogue {
    ghost use Rattle.std.specs.Prelude.{◌≡◌, ◌-◌, vec_len, vec_capacity};
    ghost use Rattle.archive_store.specs.InsideListing.{Listing};
    ghost use Rattle.archive_store.specs.InsideRows.{homes_from};

    ghost Value = { Listing };

    ghost view = { λ c. record {
      rows = c.rows.items;
      row_room = vec_capacity c.rows - vec_len c.rows;
      home_room = vec_capacity c.homes - vec_len c.homes;
    } };

    ghost invariant = { λ c. c.homes.items ≡ homes_from 0 c.rows.items };
}

impl Catalogue {
    /// No entry.
    pub(crate) fn new(alloc: Global) -> Catalogue
        ensures { result.rows ≡ [] }
    {
        Catalogue {
            rows: Vec::new(alloc),
            homes: Vec::new(alloc),
        }
    }

    /// How many entries there are.
    pub(crate) fn len(&self) -> u64
        ensures { result ≡ length self.now.rows }
    {
        self.rows.len() as u64
    }

    /// Where a group is found.
    pub(crate) fn home(&self, id: u32) -> Home
        requires { id < length (homes_from 0 self.now.rows) }
        ensures { slice_get (homes_from 0 self.now.rows) id ≡ Some result }
    {
        self.homes[id as usize]
    }

    /// The places of a group's documents in the payload of its deposit.
    pub(crate) fn places(&self, home: Home) -> &[Place]
        requires { HasHome self.now.rows home }
        ensures { result.now ≡ places_at self.now.rows home }
    {
        let row = &self.rows[home.entry as usize];
        row.entry.places(usize::from(home.number))
    }

    /// Makes room for a row with so many groups.
    pub(crate) fn reserve(&mut self, groups: usize) -> Result<(), AllocError>
        ensures room { OnOk result (HasRoomFor self.new groups) }
        ensures rows { self.new.rows ≡ self.old.rows }
    {
        self.rows.reserve(1)?;
        self.homes.reserve(groups)?;
        Ok(())
    }

    /// Adds a row for which there is room. It takes no memory.
    pub(crate) fn push(&mut self, row: Row)
        requires room { HasRoomFor self.old (group_count row.entry) }
        requires few { length self.old.rows < 2 ^ 32 }
        requires groups { group_count row.entry ≤ 64 }
        ensures { self.new.rows ≡ self.old.rows ++ row ∷ [] }
    {
        let entry = self.rows.len() as u32;
        push_homes(&mut self.homes, entry, row.entry.groups());
        let Ok(()) = self.rows.push(row) else {
            unreachable!()
        };
    }
}

impl Stored {
    /// How many groups the entry has.
    pub(crate) fn groups(&self) -> usize
        ensures { result ≡ group_count self.now }
    {
        match self {
            Stored::OnDisk(deposit) => deposit.counts.as_slice().len(),
            Stored::Whole(_) => 0,
        }
    }

    // The places of the documents of a group. Only a deposit has any.
    fn places(&self, number: usize) -> &[Place]
        requires { HasPlaces self.now number }
        ensures { result.now ≡ places_in self.now number }
    {
        let Stored::OnDisk(deposit) = self else {
            return &[];
        };
        let counts = deposit.counts.as_slice();
        let first = total(&counts[..number]);
        let count = usize::from(counts[number]);
        &deposit.places.as_slice()[first..first + count]
    }
}

// The sum of the counts.
fn total(counts: &[u8]) -> usize
    requires { length counts.now < 2 ^ 32 }
    ensures { result ≡ sum counts.now }
{
    let mut total = 0;
    for count in counts {
        total += usize::from(*count);
    }
    total
}

// Adds the homes of so many groups of an entry, for which there is room.
fn push_homes(homes: &mut Vec<Home>, entry: u32, groups: usize)
    requires room { vec_len homes.old + groups ≤ vec_capacity homes.old }
    requires few { groups ≤ 64 }
    ensures items { homes.new.items ≡ homes.old.items ++ homes_of entry groups }
{
    for number in 0..groups {
        let number = number as u8;
        let Ok(()) = homes.push(Home { entry, number }) else {
            unreachable!()
        };
    }
}
