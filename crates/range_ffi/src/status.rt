//! What a call answers.
ghost use Rattle.std.specs.Prelude.{◌≡◌, ◌≢◌, ◌↔◌, ◌⊎◌, IsTrue};
ghost use Rattle.range_edit.specs.Apart.{IsConnectedError};
ghost use Rattle.range_bulk.specs.Appending.{IsOutOfOrder};
ghost use Rattle.range_map.specs.Freeing.{IsOccupied};

use range_map::map::{NotAppended, NotFree, NotInserted};

/// The call did what it is for; to a question, yes.
pub const DONE: u32 = 0;

/// There was not enough memory, and nothing was changed.
pub const NO_MEMORY: u32 = 1;

/// The handle is closed, and nothing was done.
pub const CLOSED: u32 = 2;

/// There is none; to a question, no.
pub const NONE: u32 = 3;

/// The range meets or touches a stored one, and nothing was changed.
pub const CONNECTED: u32 = 4;

/// The handle is open on a collection of another kind, and nothing was done.
pub const OTHER_KIND: u32 = 5;

/// The handle is open already, and nothing was done.
pub const OPEN: u32 = 6;

/// The buffer is too short, and nothing was written to it.
pub const NO_ROOM: u32 = 7;

/// The text is no JSON, and nothing was changed.
pub const NOT_JSON: u32 = 8;

/// The JSON is no collection of the kind that is held, and nothing was changed.
pub const NOT_READ: u32 = 9;

/// The range meets a stored one, and nothing was changed.
pub const OCCUPIED: u32 = 10;

/// Some range does not lie after all others, and nothing was changed.
pub const OUT_OF_ORDER: u32 = 11;

/// The status that says yes or no.
pub fn answer(yes: bool) -> u32
    ensures yes { result ≡ DONE ↔ IsTrue yes }
    ensures no { result ≡ NONE ↔ ¬ IsTrue yes }
{
    if yes { DONE } else { NONE }
}

/// The status that says why a range was not inserted.
pub fn of_refusal<K, V>(refusal: &NotInserted<K, V>) -> u32
    ensures connected { result ≡ CONNECTED ↔ IsConnectedError refusal.now }
    ensures answer { (result ≡ NO_MEMORY) ⊎ (result ≡ CONNECTED) }
    ensures not_done { result ≢ DONE }
{
    match refusal {
        NotInserted::Connected(_, _) => CONNECTED,
        NotInserted::Memory(_, _) => NO_MEMORY,
    }
}

/// The status that says why a range was not inserted where none was to be in its way.
pub fn of_obstacle<K, V>(refusal: &NotFree<K, V>) -> u32
    ensures occupied { result ≡ OCCUPIED ↔ IsOccupied refusal.now }
    ensures answer { (result ≡ NO_MEMORY) ⊎ (result ≡ OCCUPIED) }
    ensures not_done { result ≢ DONE }
{
    match refusal {
        NotFree::Occupied(_, _) => OCCUPIED,
        NotFree::Memory(_, _) => NO_MEMORY,
    }
}

/// The status that says why ranges were not put after others.
pub fn of_disorder(refusal: &NotAppended) -> u32
    ensures out_of_order { result ≡ OUT_OF_ORDER ↔ IsOutOfOrder refusal.now }
    ensures answer { (result ≡ NO_MEMORY) ⊎ (result ≡ OUT_OF_ORDER) }
    ensures not_done { result ≢ DONE }
{
    match refusal {
        NotAppended::OutOfOrder => OUT_OF_ORDER,
        NotAppended::Memory => NO_MEMORY,
    }
}
