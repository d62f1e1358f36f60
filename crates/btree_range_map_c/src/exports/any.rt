//! The calls on a handle of any kind.
ghost use Rattle.std.specs.Prelude.{◌≡◌, ◌≢◌, ◌⊎◌, ◌++◌, ◌<◌, ℕ, List, length, drop, None, true, false, IsUtf8, ◌∷◌, []};
ghost use Rattle.serde_json.specs.Read.{read};
ghost use Rattle.range_handles.specs.Alike.{AreAlike, IsCopy};
ghost use Rattle.range_handles.specs.Fewest.{IsLeastRangeCount};
ghost use Rattle.range_handles.specs.Held.{HoldsRanges, range_count, emptied};
ghost use Rattle.range_handles.specs.Texts.{IsTextOf, IsTextRead, IsFaultyText};
ghost use Rattle.btree_range_map_c.specs.Statuses.{IsAnswer};

use range_ffi::status::{
    CLOSED, DONE, NO_MEMORY, NO_ROOM, NONE, NOT_JSON, NOT_READ, OPEN, OTHER_KIND,
};
use range_handles::handle::Handle;
use std::alloc::Global;
use std::mem;

/// Closes a handle, and frees the memory of its collection. A closed handle stays closed.
#[unsafe(no_mangle)]
pub extern "C" fn brm_raw_destroy(alloc: Global, handle: &mut Handle)
    ensures closed { (handle.new.is_open ≡ false) × (handle.new.seal.held ≡ None) }
{
    let old = mem::replace(handle, Handle::closed(alloc));
    if old.is_open {
        drop(old.into_box());
    }
}

/// Takes all ranges away, and keeps their memory for others. Allocates nothing.
#[unsafe(no_mangle)]
pub extern "C" fn brm_clear(handle: &mut Handle) -> u32
    ensures emptied { handle.new.seal.held ≡ emptied handle.old.seal.held }
    ensures closed { handle.old.is_open ≡ false → result ≡ CLOSED }
    ensures answer { handle.old.is_open ≡ true → result ≡ DONE }
{
    if !handle.is_open {
        return CLOSED;
    }
    handle.seal.as_mut().clear();
    DONE
}

/// How many ranges are stored, none of a closed handle. No fewer ranges would do.
#[unsafe(no_mangle)]
pub extern "C" fn brm_count(handle: &mut Handle) -> usize
    ensures unchanged { handle.new.seal.held ≡ handle.old.seal.held }
    ensures value { result ≡ range_count handle.old.seal.held }
    ensures least { IsLeastRangeCount handle.old.seal.held result }
{
    if !handle.is_open {
        return 0;
    }
    handle.seal.as_mut().range_count()
}

/// Opens a closed handle on a collection of the same kind, with equal ranges and values. A lexer is
/// not cloned.
///
/// Allocates its ranges, and one block more. Goes once over what is held.
#[unsafe(no_mangle)]
pub extern "C" fn brm_raw_clone(alloc: Global, handle: &mut Handle, made: &mut Handle) -> u32
    ensures unchanged { handle.new.seal.held ≡ handle.old.seal.held }
    ensures made { result ≡ DONE → IsCopy made.new.seal.held handle.old.seal.held }
    ensures refused { result ≢ DONE → made.new.seal.held ≡ made.old.seal.held }
    ensures open { made.old.is_open ≡ true → result ≡ OPEN }
    ensures answer { made.old.is_open ≡ false
        → IsAnswer HoldsRanges handle.old result (DONE ∷ NO_MEMORY ∷ []) }
{
    if made.is_open {
        return OPEN;
    }
    if !handle.is_open {
        return CLOSED;
    }
    if !handle.seal.as_mut().has_ranges() {
        return OTHER_KIND;
    }
    match handle.seal.as_mut().copied() {
        Ok(copy) => made.fill(alloc, copy),
        Err(_) => NO_MEMORY,
    }
}

/// Whether both hold the same: `DONE` where each key is bound alike, or in both or in neither,
/// `NONE` where one is not, `OTHER_KIND` of collections of two kinds and of lexers.
///
/// Goes once over both.
#[unsafe(no_mangle)]
pub extern "C" fn brm_raw_equal(handle: &mut Handle, other: &mut Handle) -> u32
    ensures unchanged { (handle.new.seal.held ≡ handle.old.seal.held)
        × (other.new.seal.held ≡ other.old.seal.held) }
    ensures yes { result ≡ DONE → AreAlike handle.old.seal.held other.old.seal.held }
    ensures no { result ≡ NONE → ¬ AreAlike handle.old.seal.held other.old.seal.held }
    ensures closed { (handle.old.is_open ≡ false) ⊎ (other.old.is_open ≡ false)
        → result ≡ CLOSED }
    ensures answer { HoldsRanges handle.old.seal.held → other.old.is_open ≡ true
        → emptied handle.old.seal.held ≡ emptied other.old.seal.held
        → (result ≡ DONE) ⊎ (result ≡ NONE) }
    ensures other { handle.old.is_open ≡ true → other.old.is_open ≡ true
        → (¬ emptied handle.old.seal.held ≡ emptied other.old.seal.held)
        → result ≡ OTHER_KIND }
    ensures lexer { handle.old.is_open ≡ true → other.old.is_open ≡ true
        → (¬ HoldsRanges handle.old.seal.held) → result ≡ OTHER_KIND }
{
    if !handle.is_open || !other.is_open {
        return CLOSED;
    }
    handle.seal.as_mut().equals(other.seal.as_mut())
}

/// Copies the text to the front of the buffer, and tells its length. One that is too short for it
/// stays as it was.
fn copy_text(text: &[u8], buffer: &mut [u8], size: &mut usize) -> u32
    ensures copied { result ≡ DONE
        → buffer.new ≡ text.now ++ drop (length text.now) buffer.old }
    ensures short { result ≡ NO_ROOM
        → (length buffer.old < length text.now) × (buffer.new ≡ buffer.old) }
    ensures told { size.new ≡ length text.now }
    ensures answer { (result ≡ DONE) ⊎ (result ≡ NO_ROOM) }
{
    *size = text.len();
    if buffer.len() < text.len() {
        return NO_ROOM;
    }
    let (front, _) = buffer.split_at_mut(text.len());
    front.copy_from_slice(text);
    DONE
}

/// Writes what is held as JSON text to the front of the buffer, and tells its length.
///
/// A buffer that is too short stays as it was, and the length is told as well: ask with one of no
/// bytes first. Allocates the text, and its parts before; these are freed again.
#[unsafe(no_mangle)]
pub extern "C" fn brm_save(
    alloc: Global,
    handle: &mut Handle,
    buffer: &mut [u8],
    size: &mut usize,
) -> u32
    ensures unchanged { handle.new.seal.held ≡ handle.old.seal.held }
    ensures saved { result ≡ DONE → (text : List ℕ) × IsTextOf handle.old.seal.held text
        × (buffer.new ≡ text ++ drop (length text) buffer.old) × (size.new ≡ length text) }
    ensures short { result ≡ NO_ROOM → (text : List ℕ) × IsTextOf handle.old.seal.held text
        × (length buffer.old < length text) × (size.new ≡ length text) }
    ensures unwritten { result ≢ DONE → buffer.new ≡ buffer.old }
    ensures untold { result ≢ DONE → result ≢ NO_ROOM → size.new ≡ size.old }
    ensures answer { IsAnswer HoldsRanges handle.old result (DONE ∷ NO_ROOM ∷ NO_MEMORY ∷ []) }
{
    if !handle.is_open {
        return CLOSED;
    }
    if !handle.seal.as_mut().has_ranges() {
        return OTHER_KIND;
    }
    match handle.seal.as_mut().text(alloc) {
        Ok(text) => copy_text(text.as_slice(), buffer, size),
        Err(_) => NO_MEMORY,
    }
}

/// Holds what the JSON text is read as, in place of what it held: a collection of the same kind.
///
/// Reads what `brm_save` writes, and what the library's readers read else. Allocates.
#[unsafe(no_mangle)]
pub extern "C" fn brm_load(alloc: Global, handle: &mut Handle, text: &[u8]) -> u32
    ensures kind { emptied handle.new.seal.held ≡ emptied handle.old.seal.held }
    ensures loaded { result ≡ DONE → IsTextRead text.now handle.new.seal.held }
    ensures refused { result ≢ DONE → handle.new.seal.held ≡ handle.old.seal.held }
    ensures not_json { result ≡ NOT_JSON → IsUtf8 text.now → read text.now ≡ None }
    ensures not_read { result ≡ NOT_READ → IsFaultyText handle.old.seal.held text.now }
    ensures answer { IsAnswer HoldsRanges handle.old result
        (DONE ∷ NO_MEMORY ∷ NOT_JSON ∷ NOT_READ ∷ []) }
{
    if !handle.is_open {
        return CLOSED;
    }
    if !handle.seal.as_mut().has_ranges() {
        return OTHER_KIND;
    }
    handle.seal.as_mut().load(alloc, text)
}
