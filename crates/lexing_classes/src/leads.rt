//! The ranges of characters of a class, each of which leads to a state.
ghost use Rattle.std.specs.Prelude.{ℕ, ◌≤◌, ◌<◌, ◌+◌, ◌≡◌, ◌↔◌, ◌⊎◌, true, IfOk, OnOk, MatchOption, vec_len};
ghost use Rattle.std.specs.Char.{IsScalar};
ghost use Rattle.regex_class.specs.Ranges.{in_ranges};
ghost use Rattle.lexing_classes.specs.Leads.{Leads, HasPiece, AreCharacters, lead_count, piece_count, range_lead_count};

use regex_class::ClassRange;
use std::alloc::{AllocError, Global};

/// Each character of a range leads to a state.
#[derive(Clone, Copy)]
pub struct Lead {
    pub first: char,
    pub last: char,
    pub to: u32,
}

const BEFORE_SURROGATES: u32 = 0xD7FF;

const AFTER_SURROGATES: u32 = 0xE000;

const LAST: u32 = 0x10_FFFF;

/// Leads to the state by the characters of the ranges. A surrogate is none.
///
/// Allocates.
pub fn leads_of(alloc: Global, ranges: &[ClassRange], to: u32) -> Result<Vec<Lead>, AllocError>
    ensures members { IfOk result (λ r. (c q : ℕ) → IsScalar c → Leads r.items c q
        ↔ ((in_ranges ranges.now c ≡ true) × (q ≡ to))) }
    ensures one { IfOk result (λ r. (c q : ℕ) → Leads r.items c q → q ≡ to) }
    ensures count { IfOk result (λ r. vec_len r ≡ lead_count ranges.now) }
{
    let mut leads = Vec::new(alloc);
    for range in ranges {
        add_range(&mut leads, *range, to)?;
    }
    Ok(leads)
}

/// Adds leads for the characters of the range, in which the surrogates are none.
fn add_range(leads: &mut Vec<Lead>, range: ClassRange, to: u32) -> Result<(), AllocError>
    ensures members { OnOk result ((c q : ℕ) → IsScalar c → Leads leads.new.items c q
        ↔ (Leads leads.old.items c q ⊎ HasPiece range.0 range.1 to c q)) }
    ensures one { OnOk result ((c q : ℕ) → Leads leads.new.items c q
        → Leads leads.old.items c q ⊎ (q ≡ to)) }
    ensures count { OnOk result (vec_len leads.new ≡ vec_len leads.old + range_lead_count range) }
{
    let (first, last) = range;
    add_piece(leads, first, last.min(BEFORE_SURROGATES), to)?;
    add_piece(leads, first.max(AFTER_SURROGATES), last.min(LAST), to)
}

/// Adds a lead for the range, if it has a character.
fn add_piece(leads: &mut Vec<Lead>, first: u32, last: u32, to: u32) -> Result<(), AllocError>
    requires { AreCharacters first last }
    ensures members { OnOk result ((c q : ℕ) → Leads leads.new.items c q
        ↔ (Leads leads.old.items c q ⊎ HasPiece first last to c q)) }
    ensures count { OnOk result (vec_len leads.new ≡ vec_len leads.old + piece_count first last) }
{
    if let Some(lead) = piece(first, last, to) {
        leads.push(lead)?;
    }
    Ok(())
}

fn piece(first: u32, last: u32, to: u32) -> Option<Lead>
    requires { AreCharacters first last }
    ensures { MatchOption result (last < first)
        (λ lead. (first ≤ last) × (lead.first ≡ first) × (lead.last ≡ last) × (lead.to ≡ to)) }
{
    if last < first {
        return None;
    }
    let first = char::from_u32(first)?;
    let last = char::from_u32(last)?;
    Some(Lead { first, last, to })
}
