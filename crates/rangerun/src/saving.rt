//! The map as a line of JSON text, and a map from one.

ghost use Rattle.std.specs.Prelude.{◌≡◌, ◌⊎◌, Some, None, IfOk, IfErr, OnOk, string_bytes};
ghost use Rattle.std.specs.Io.KnownBytes.{Appends};
ghost use Rattle.serde_json.specs.Read.{read};
ghost use Rattle.btree_range_map.specs.Borrowed.{borrowed_data};
ghost use Rattle.serde_json.specs.Written.{compact_text};
ghost use Rattle.btree_range_map.specs.Holding.{box_items};
ghost use Rattle.btree_range_map.specs.JsonError.TheVariants.{Memory};
ghost use Rattle.btree_range_map.specs.Keys.{signed_shape};
ghost use Rattle.btree_range_map.specs.Shapes.{map_shape};
ghost use Rattle.line_program.specs.Listing.{Writes};
ghost use Rattle.rangerun.specs.Saving.{element_fault_text, fault_text, AnswersLoad, IsCause, IsLoaded, SpellsSaved};
ghost use Rattle.rangerun.specs.declared.saving.LoadError.TheVariants.{NotJson, Faulty};

use crate::number::SpelledKey;
use btree_range_map::RangeMap;
use btree_range_map::json::{JsonError, Scratch, TextError, map_from_json, map_to_json, parse};
use json::Value;
use std::alloc::{AllocError, Global};
use std::io::{self, Write};

/// Why a text was not loaded.
#[derive(Drop)]
pub enum LoadError {
    /// The text is no JSON.
    NotJson,
    /// Its JSON value is no map, or there was not enough memory.
    Faulty(JsonError),
}

fn map_text<K: SpelledKey>(alloc: Global, map: &RangeMap<K, i64>) -> Result<String, AllocError>
    ensures { IfOk result
        (λ text. string_bytes text
        ≡ compact_text (map_shape K.shape signed_shape (box_items map.now))) }
{
    let value = map_to_json(alloc, map)?;
    value.to_string(alloc)
}

/// Writes the map as a line of JSON text.
pub fn save<K: SpelledKey, W: Write>(
    alloc: Global,
    map: &RangeMap<K, i64>,
    out: &mut W,
) -> io::Result<()>
    ensures { OnOk result
        (Writes (W.contents out.old) (W.contents out.new)
        (SpellsSaved K.shape (box_items map.now))) }
{
    match map_text(alloc, map) {
        Ok(text) => writeln!(out, "{text}"),
        Err(_) => out.write_all(b"memory\n"),
    }
}

fn write_element_fault<W: Write>(number: u8, element: &usize, out: &mut W) -> io::Result<()>
    ensures { OnOk result
        (Appends (W.contents out.old) (W.contents out.new)
        (element_fault_text number element.now)) }
{
    writeln!(out, "json {number} {element}")
}

fn write_fault<W: Write>(fault: &JsonError, out: &mut W) -> io::Result<()>
    ensures { OnOk result
        (Appends (W.contents out.old) (W.contents out.new) (fault_text fault.now)) }
{
    match fault {
        JsonError::Memory => out.write_all(b"memory\n"),
        JsonError::NotArray => out.write_all(b"json 5\n"),
        JsonError::NotPair(element) => write_element_fault(6, element, out),
        JsonError::NotRange(element) => write_element_fault(7, element, out),
        JsonError::NotBound(element) => write_element_fault(8, element, out),
        JsonError::Key(element) => write_element_fault(9, element, out),
        JsonError::Value(element) => write_element_fault(10, element, out),
        JsonError::Meets(element) => write_element_fault(11, element, out),
        JsonError::Version => out.write_all(b"json 12\n"),
    }
}

fn json_of<'a>(
    alloc: Global,
    text: &'a str,
    scratch: &'a mut Scratch,
) -> Result<Value<'a>, LoadError>
    ensures read { IfOk result (λ value. read text.now ≡ Some (borrowed_data value)) }
    ensures refused { IfErr result
        (λ e. ((e ≡ NotJson) × (read text.now ≡ None)) ⊎ (e ≡ Faulty Memory)) }
{
    match parse(alloc, text, scratch) {
        Ok(value) => Ok(value),
        Err(TextError::Memory) => Err(LoadError::Faulty(JsonError::Memory)),
        Err(TextError::NotJson) => Err(LoadError::NotJson),
    }
}

fn map_of<K: SpelledKey>(alloc: Global, text: &str) -> Result<RangeMap<K, i64>, LoadError>
    ensures loaded { IfOk result
        (λ map. IsLoaded K.order K.reads K.is_read text.now (box_items map)) }
    ensures refused { IfErr result (λ cause. IsCause K.order K.reads K.is_read text.now cause) }
{
    let mut scratch = Scratch::new(alloc);
    let value = json_of(alloc, text, &mut scratch)?;
    match map_from_json(alloc, &value) {
        Ok(map) => Ok(map),
        Err(fault) => Err(LoadError::Faulty(fault)),
    }
}

/// Replaces the map by what the text is read as, and writes `ok`.
///
/// A text that is not read writes why, and leaves the map as it was.
pub fn load<K: SpelledKey, W: Write>(
    alloc: Global,
    map: &mut RangeMap<K, i64>,
    text: &str,
    out: &mut W,
) -> io::Result<()>
    ensures { OnOk result
        (Writes (W.contents out.old) (W.contents out.new)
        (λ reply. AnswersLoad K.order K.reads K.is_read (box_items map.old) text.now reply
        (box_items map.new))) }
{
    match map_of::<K>(alloc, text) {
        Ok(loaded) => {
            *map = loaded;
            out.write_all(b"ok\n")
        }
        Err(LoadError::NotJson) => out.write_all(b"bad json\n"),
        Err(LoadError::Faulty(fault)) => write_fault(&fault, out),
    }
}
