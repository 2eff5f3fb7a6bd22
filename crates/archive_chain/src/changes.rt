// What an entry adds to an archive.
ghost use Rattle.std.specs.Prelude.{◌≡◌, ◌<◌, ◌≤◌, ◌+◌, ℕ, List, [], ◌∷◌, ◌++◌, length, replicate, vec_len, vec_capacity, None};
ghost use Rattle.std.specs.List.{AllByRecursion};
ghost use Rattle.algorithm_policy.specs.Content.{IsPolicy, first_dropped};
ghost use Rattle.algorithm_policy.specs.Text.{PolicyText};
ghost use Rattle.entry_codec.specs.declared.entry.Entry.TheVariants.{Deposit, Seal, RenewStamps, RenewTrees, SetPolicy};
ghost use Rattle.archive_chain.specs.Held.{IsCounted, Takes};
ghost use Rattle.archive_chain.specs.InsideTable.{led, lengthened};
ghost use Rattle.archive_chain.specs.InsidePieces.{TreesFit, StampsFit};
ghost use Rattle.archive_chain.specs.InsideReady.{HasSpare, HasNames, IsStamped, DepositFit, SealFit};

use crate::archive::Archive;
use crate::ready::Counts;
use crate::row::{Longer, Row};
use crate::time_stamp::{Slot, TimeStamp};
use algorithm_policy::Policy;
use algorithm_policy::laws::what_a_policy_keeps;

// Pushes an item for which there is room.
fn put<T: Drop>(items: &mut Vec<T>, item: T)
    requires { vec_len items.old < vec_capacity items.old }
    ensures items { items.new.items ≡ items.old.items ++ item ∷ [] }
    ensures len { vec_len items.new ≡ vec_len items.old + 1 }
    ensures room { vec_capacity items.old ≤ vec_capacity items.new }
{
    let _ = items.push(item);
}

// So many times the same row.
fn push_all(firsts: &mut Vec<u32>, row: u32, count: u32)
    requires { vec_len firsts.old + count ≤ vec_capacity firsts.old }
    ensures items { firsts.new.items ≡ firsts.old.items ++ replicate count row }
    ensures len { vec_len firsts.new ≡ vec_len firsts.old + count }
    ensures room { vec_capacity firsts.old ≤ vec_capacity firsts.new }
{
    for _ in 0..count {
        let _ = firsts.push(row);
    }
}

// From now on these rows lead to that one.
fn lead(rows: &mut Vec<Row>, mut places: Vec<u32>, next: u32)
    requires { AllByRecursion (λ place. place < length rows.old.items) places.items }
    ensures items { rows.new.items ≡ led next places.items rows.old.items }
    ensures len { vec_len rows.new ≡ vec_len rows.old }
    ensures room { vec_capacity rows.old ≤ vec_capacity rows.new }
{
    while let Some(place) = places.pop() {
        rows[place as usize].next = Some(next);
    }
}

// Puts the longer lists in place.
fn lengthen(rows: &mut Vec<Row>, mut longer: Vec<Longer>)
    requires { AllByRecursion (λ l. l.row < length rows.old.items) longer.items }
    ensures items { rows.new.items ≡ lengthened longer.items rows.old.items }
    ensures len { vec_len rows.new ≡ vec_len rows.old }
    ensures room { vec_capacity rows.old ≤ vec_capacity rows.new }
{
    while let Some(l) = longer.pop() {
        let row = &mut rows[l.row as usize];
        row.later = l.later;
        row.most = l.most;
    }
}

impl Archive {
    // Adds a Deposit of so many groups, documents and bytes.
    pub(crate) fn add_deposit(&mut self, counts: Counts)
        requires spare { HasSpare self.old }
        requires fits { DepositFit self.old counts.groups counts.documents counts.bytes }
        ensures { (groups : List (List (List ℕ))) → IsCounted groups counts.groups counts.documents counts.bytes
            → Takes self.old (Deposit groups) [] self.new }
    {
        put(&mut self.stamps, Slot::none());
        self.pending += counts.groups;
        self.documents += counts.documents;
        self.bytes += counts.bytes;
        self.spare_stamps -= 1;
    }

    // Adds a Seal of so many groups, whose row is this one.
    pub(crate) fn add_seal(&mut self, stamp: Box<TimeStamp>, row: Row, count: u32)
        requires spare { HasSpare self.old }
        requires stamped { IsStamped self.old stamp.value }
        requires fits { SealFit self.old stamp.value row count }
        ensures { Takes self.old (Seal stamp.value.alg count stamp.value.token) stamp.value.tree.leaves self.new }
    {
        let place = self.rows.len() as u32;
        let name = row.stamp;
        put(&mut self.stamps, Slot::of(stamp));
        put(&mut self.rows, row);
        put(&mut self.names, name);
        put(&mut self.live, place);
        push_all(&mut self.firsts, place, count);
        self.pending -= count;
        self.spare_stamps -= 1;
        self.spare_groups -= count as usize;
    }

    // Adds a RenewTrees, whose row is this one, for the groups of the cohorts of these rows.
    pub(crate) fn add_trees(
        &mut self,
        stamp: Box<TimeStamp>,
        row: Row,
        places: Vec<u32>,
        names: Vec<u32>,
        live: Vec<u32>,
    )
        requires spare { HasSpare self.old }
        requires stamped { IsStamped self.old stamp.value }
        requires room { HasNames self.old (vec_len names) (vec_capacity names) (vec_len live) (vec_capacity live) }
        requires fits { (cohorts : List ℕ) × TreesFit self.old stamp.value row places.items names.items live.items cohorts }
        ensures { (cohorts : List ℕ) → TreesFit self.old stamp.value row places.items names.items live.items cohorts
            → Takes self.old (RenewTrees stamp.value.alg cohorts stamp.value.token) stamp.value.tree.leaves self.new }
    {
        let next = self.rows.len() as u32;
        self.names = names;
        self.live = live;
        lead(&mut self.rows, places, next);
        put(&mut self.stamps, Slot::of(stamp));
        put(&mut self.rows, row);
        self.spare_stamps -= 1;
    }

    // Adds a RenewStamps, with which the further time-stamps of its cohorts are these.
    pub(crate) fn add_stamps(&mut self, stamp: Box<TimeStamp>, longer: Vec<Longer>)
        requires spare { HasSpare self.old }
        requires stamped { IsStamped self.old stamp.value }
        requires fits { (cohorts : List ℕ) × StampsFit self.old stamp.value longer.items cohorts }
        ensures { (cohorts : List ℕ) → StampsFit self.old stamp.value longer.items cohorts
            → Takes self.old (RenewStamps stamp.value.alg cohorts stamp.value.token) stamp.value.tree.leaves self.new }
    {
        lengthen(&mut self.rows, longer);
        put(&mut self.stamps, Slot::of(stamp));
        self.spare_stamps -= 1;
    }

    // Adds a SetPolicy, with this policy.
    pub(crate) fn add_policy(&mut self, policy: Policy)
        requires spare { HasSpare self.old }
        requires valid { IsPolicy policy }
        requires kept { first_dropped self.old.policy policy ≡ None }
        ensures { (text : List ℕ) → PolicyText text policy → Takes self.old (SetPolicy text) [] self.new }
    {
        what_a_policy_keeps();
        put(&mut self.stamps, Slot::none());
        self.policy = policy;
        self.spare_stamps -= 1;
    }
}
