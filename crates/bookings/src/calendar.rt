//! Which minutes are booked, and by whom.

ghost use Rattle.std.specs.Prelude.{◌≡◌, ◌<◌, ℕ, [], IfErr, IfOk, IfSome, MatchOption, OnErr, OnOk};
ghost use Rattle.btree_range_map.specs.Names.{u32_order};
ghost use Rattle.btree_range_map.specs.Range.{EndHolds};
ghost use Rattle.bookings.specs.declared.calendar.NotBooked.TheVariants.{Taken};
ghost use Rattle.bookings.specs.Calendars.{AreBooked, AreCancelled, AreFree, AreInTheWay, IsCommonRoom, IsFirst, IsReason, IsRoom, minutes_of};

use btree_range_map::generic::map::Overlapping;
use btree_range_map::storage::Item;
use btree_range_map::{AnyRange, DefaultMapContainer, MapError, RangeMap};
use std::alloc::Global;
use std::marker::Model;
use std::ops::{Bound, Range};

/// Which minutes are booked, and the name of who booked them.
///
/// Bookings that touch and have one name are one. A contract sees the list of the booked ranges.
#[derive(Drop)]
pub struct Calendar {
    booked: RangeMap<u32, String>,
}

impl Model for Calendar {
    ghost use Rattle.btree_range_map.specs.Names.{bindings_of};
    ghost use Rattle.bookings.specs.Calendars.{Bookings};

    ghost Value = { Bookings };

    ghost view = { λ calendar. bindings_of calendar.booked };
}

/// The bookings that have some minutes and are left, each with its name, in order.
pub type BookingsIn<'a> = Overlapping<
    'a,
    u32,
    String,
    DefaultMapContainer<Item<AnyRange<u32>, String>>,
>;

/// Why minutes are not booked.
#[derive(Drop)]
pub enum NotBooked {
    /// The first booked range that has some of the minutes.
    Taken(AnyRange<u32>),
    /// There was not enough memory.
    Memory,
}

impl From<MapError> for NotBooked {
    ghost use Rattle.bookings.specs.declared.calendar.NotBooked.TheVariants.{Memory};

    ghost from_gives = { λ _ e. e ≡ Memory };

    fn from(_error: MapError) -> NotBooked {
        NotBooked::Memory
    }
}

/// The minute after a booked range, or the last minute that there is.
fn after(booked: &AnyRange<u32>) -> u32
    ensures held { (minute : ℕ) → minute < result → EndHolds u32_order booked.now.end minute }
    ensures past { (minute : ℕ) → minute < 4294967295
        → EndHolds u32_order booked.now.end minute → minute < result }
{
    match booked.end {
        Bound::Included(last) => last.saturating_add(1),
        Bound::Excluded(end) => end,
        Bound::Unbounded => u32::MAX,
    }
}

impl Calendar {
    /// A calendar without a booking. Allocates nothing.
    pub fn new(alloc: Global) -> Calendar
        ensures { result ≡ [] }
    {
        Calendar {
            booked: RangeMap::new(alloc),
        }
    }

    /// The bookings that have some of the minutes, in order. Allocates nothing.
    pub fn bookings_in(&self, minutes: &Range<u32>) -> BookingsIn<'_>
        ensures none { result ≡ [] → AreFree self.now (minutes_of minutes.now) }
        ensures met { AreInTheWay self.now (minutes_of minutes.now) result }
    {
        let _bookings = self.booked.iter(); // whose contract says that none of them is empty
        let (start, end) = (minutes.start, minutes.end);
        self.booked.overlapping(start..end)
    }

    /// The first booked range that has some of the minutes.
    fn first_in(&self, minutes: &Range<u32>) -> Option<AnyRange<u32>>
        ensures { MatchOption result (AreFree self.now (minutes_of minutes.now))
            (λ booked. IsReason self.now (minutes_of minutes.now) (Taken booked)) }
    {
        match self.bookings_in(minutes).next() {
            Some((booked, _name)) => Some(*booked),
            None => None,
        }
    }

    /// Books the minutes under the name, where all of them are free.
    ///
    /// A refused booking names what is in its way, and changes nothing.
    pub fn book(&mut self, minutes: Range<u32>, name: String) -> Result<(), NotBooked>
        ensures free { OnOk result (AreFree self.old (minutes_of minutes)) }
        ensures booked { OnOk result (AreBooked self.old self.new (minutes_of minutes) name) }
        ensures taken { IfErr result (IsReason self.old (minutes_of minutes)) }
        ensures refused { OnErr result (self.new ≡ self.old) }
    {
        match self.first_in(&minutes) {
            Some(booked) => Err(NotBooked::Taken(booked)),
            None => Ok(self.booked.insert(minutes, name)?),
        }
    }

    /// Cancels what is booked of the minutes. A booking that reaches out of them keeps its rest.
    pub fn cancel(&mut self, minutes: Range<u32>) -> Result<(), MapError>
        ensures cancelled { OnOk result (AreCancelled self.old self.new (minutes_of minutes)) }
        ensures refused { OnErr result (self.new ≡ self.old) }
    {
        self.booked.remove(minutes)
    }

    /// The first of so many free minutes within others, or none where no such minutes are free.
    /// Searches once for each booking that is in the way. Allocates nothing.
    pub fn free(&self, within: &Range<u32>, length: u32) -> Option<u32>
        ensures { IsFirst (IsRoom self.now within.now length) result }
    {
        let mut start = within.start;
        while start <= within.end && length <= within.end - start {
            match self.first_in(&(start..start + length)) {
                Some(booked) => start = after(&booked),
                None => return Some(start),
            }
        }
        None
    }

    /// The first of so many minutes within others that are free in both calendars, or none where no
    /// such minutes are. Allocates a calendar of all that is booked in either.
    pub fn common(
        &self,
        other: &Calendar,
        within: &Range<u32>,
        length: u32,
    ) -> Result<Option<u32>, MapError>
        ensures { IfOk result (IsFirst (IsCommonRoom self.now other.now within.now length)) }
    {
        let either = Calendar {
            booked: self.booked.overlay(&other.booked)?,
        };
        Ok(either.free(within, length))
    }
}
