//! What a line says.

ghost use Rattle.std.specs.Prelude.{◌≡◌, ◌<◌, ◌∷◌, ◌++◌, [], List, ℕ, Err, IfOk, IfSome, codes};
ghost use Rattle.rangecalc.specs.Lines.{BeginsWith, Says, amendment_sign, kept_word, letter, relation_word, way_word, words_of};
ghost use Rattle.rangecalc.specs.declared.line.Unread.TheVariants.{Memory};

use crate::named::Name;
use crate::number::{NumberKey, number};
use btree_range_map::AnyRange;
use std::alloc::Global;
use std::ops::Bound;

/// Why a line is not read.
#[derive(Drop)]
pub enum Unread {
    /// It has no known form.
    Unknown,
    /// There was not enough memory for its list of ranges.
    Memory,
}

/// What is to be done to a map.
#[derive(Drop)]
pub enum Change<K> {
    Insert(AnyRange<K>, i64),
    Try(AnyRange<K>, i64),
    Remove(AnyRange<K>),
    Drop(i64),
    From(Vec<(AnyRange<K>, i64)>),
    PopFirst,
    PopLast,
    Clear,
}

/// What is asked of a map, with an answer of one line.
#[derive(Drop)]
pub enum Question<K> {
    Get(K),
    At(K),
    Has(K),
    Meets(AnyRange<K>),
    All(AnyRange<K>),
    First,
    Last,
    Count,
    Len,
    Levels,
}

/// What is asked of a map, with a line for each range.
#[derive(Drop)]
pub enum Listing<K> {
    Show,
    Gaps,
    Over(AnyRange<K>),
    Free(AnyRange<K>),
    Pieces(AnyRange<K>),
}

/// Which keys of two maps a third one binds.
#[derive(Clone, Copy)]
pub enum Way {
    /// Those that both bind, each to the sum of its values.
    Both,
    /// Those that just one of them binds, to its value.
    Either,
    /// All, to the first map's value where there are two.
    Over,
}

/// Which bindings of a map a third one has.
#[derive(Clone, Copy)]
pub enum Kept {
    /// Those of the keys that the second map binds.
    In,
    /// Those of all other keys.
    Without,
}

/// How a map is changed by another.
#[derive(Clone, Copy)]
pub enum Amendment {
    /// The keys of the other are bound as there.
    Extend,
    /// The keys of the other are unbound.
    Subtract,
}

/// What may be true of two maps.
#[derive(Clone, Copy)]
pub enum Relation {
    /// They bind each key alike.
    Equals,
    /// Each key that the first binds is bound by the second.
    Subset,
    /// No key is bound by both.
    Apart,
}

/// A line after its name.
#[derive(Drop)]
pub enum Command<K> {
    Change(Change<K>),
    Ask(Question<K>),
    List(Listing<K>),
    Split(K),
    Compare(Relation, Name),
    Combine(Way, Name, Name),
    Keep(Kept, Name, Name),
    Amend(Amendment, Name),
}

/// The text before and after the first space.
fn split_at_space(text: &str) -> Option<(&str, &str)>
    ensures { IfSome result (λ parts. text.now ≡ parts.0.now ++ 32 ∷ parts.1.now) }
{
    text.split_once(' ')
}

/// The text after such a character at its front.
fn without_front(text: &str, front: char) -> Option<&str>
    requires { front < 128 }
{
    text.strip_prefix(front)
}

fn key<K: NumberKey>(text: &str) -> Option<K> {
    K::from_number(number(text)?)
}

fn end<K: NumberKey>(text: &str) -> Option<Bound<K>> {
    if text.is_empty() {
        return Some(Bound::Unbounded);
    }
    match without_front(text, '=') {
        Some(last) => Some(Bound::Included(key(last)?)),
        None => Some(Bound::Excluded(key(text)?)),
    }
}

/// The start that a third dot leaves out.
fn start_left_out<K: NumberKey>(text: &str) -> Option<Bound<K>> {
    if text.is_empty() {
        return Some(Bound::Unbounded);
    }
    Some(Bound::Excluded(key(text)?))
}

fn first<K: NumberKey>(text: &str) -> Option<Bound<K>> {
    Some(Bound::Included(key(text)?))
}

/// A range as it is printed, such as `0..5`, `0..=5`, `0...5` without its start, or `...` for every
/// key.
pub fn range<K: NumberKey>(text: &str) -> Option<AnyRange<K>> {
    let (head, tail) = text.split_once("..")?;
    let (start, tail) = match without_front(tail, '.') {
        Some(tail) => (start_left_out(head), tail),
        None => (first(head), tail),
    };
    Some(AnyRange::new(start?, end(tail)?))
}

fn pair<K: NumberKey>(spelled: &str, value: &str) -> Option<(AnyRange<K>, i64)> {
    Some((range(spelled)?, number(value)?))
}

/// A range and a number with a space between them.
fn binding<K: NumberKey>(text: &str) -> Option<(AnyRange<K>, i64)> {
    let (spelled, value) = split_at_space(text)?;
    pair(spelled, value)
}

/// The text before the first space, and the text after it where there is one.
fn front_word(text: &str) -> (&str, Option<&str>) {
    match split_at_space(text) {
        Some((word, rest)) => (word, Some(rest)),
        None => (text, None),
    }
}

/// A range and a number in front of a text, and the text after them where there is more.
fn front_binding<K: NumberKey>(text: Option<&str>) -> Option<((AnyRange<K>, i64), Option<&str>)> {
    let (spelled, rest) = split_at_space(text?)?;
    let (value, rest) = front_word(rest);
    Some((pair(spelled, value)?, rest))
}

/// So many ranges with their numbers, and no more.
fn bindings<K: NumberKey>(
    alloc: Global,
    count: u64,
    text: Option<&str>,
) -> Result<Vec<(AnyRange<K>, i64)>, Unread> {
    let mut rest = text;
    let mut bindings = Vec::new(alloc);
    for _ in 0..count {
        let Some((binding, after)) = front_binding(rest) else {
            return Err(Unread::Unknown);
        };
        if bindings.push(binding).is_err() {
            return Err(Unread::Memory);
        }
        rest = after;
    }
    match rest {
        Some(_) => Err(Unread::Unknown),
        None => Ok(bindings),
    }
}

/// A number and so many ranges with theirs.
fn list<K: NumberKey>(alloc: Global, text: &str) -> Result<Vec<(AnyRange<K>, i64)>, Unread> {
    let (word, rest) = front_word(text);
    match number(word).map(u64::try_from) {
        Some(Ok(count)) => bindings(alloc, count, rest),
        _ => Err(Unread::Unknown),
    }
}

fn name_of(word: &str) -> Option<Name>
    ensures { IfSome result (λ name. word.now ≡ letter name ∷ []) }
{
    match word {
        "a" => Some(Name::A),
        "b" => Some(Name::B),
        "c" => Some(Name::C),
        "d" => Some(Name::D),
        _ => None,
    }
}

/// The letter of a map and the text after it.
fn front_name(text: &str) -> Option<(Name, &str)>
    ensures { IfSome result (λ parts. text.now ≡ letter parts.0 ∷ 32 ∷ parts.1.now) }
{
    let (word, rest) = split_at_space(text)?;
    Some((name_of(word)?, rest))
}

/// A command of words alone.
fn without_fields<K: NumberKey>(words: &str) -> Option<Command<K>>
    ensures { IfSome result (λ command. words.now ≡ words_of command) }
{
    match words {
        "pop first" => Some(Command::Change(Change::PopFirst)),
        "pop last" => Some(Command::Change(Change::PopLast)),
        "clear" => Some(Command::Change(Change::Clear)),
        "first" => Some(Command::Ask(Question::First)),
        "last" => Some(Command::Ask(Question::Last)),
        "count" => Some(Command::Ask(Question::Count)),
        "len" => Some(Command::Ask(Question::Len)),
        "levels" => Some(Command::Ask(Question::Levels)),
        "show" => Some(Command::List(Listing::Show)),
        "gaps" => Some(Command::List(Listing::Gaps)),
        _ => None,
    }
}

fn way_of(word: &str) -> Option<Way>
    ensures { IfSome result (λ way. word.now ≡ way_word way) }
{
    match word {
        "both" => Some(Way::Both),
        "either" => Some(Way::Either),
        "over" => Some(Way::Over),
        _ => None,
    }
}

fn kept_of(word: &str) -> Option<Kept>
    ensures { IfSome result (λ kept. word.now ≡ kept_word kept) }
{
    match word {
        "in" => Some(Kept::In),
        "without" => Some(Kept::Without),
        _ => None,
    }
}

fn amendment_of(word: &str) -> Option<Amendment>
    ensures { IfSome result (λ amendment. word.now ≡ amendment_sign amendment) }
{
    match word {
        "+=" => Some(Amendment::Extend),
        "-=" => Some(Amendment::Subtract),
        _ => None,
    }
}

fn relation_of(word: &str) -> Option<Relation>
    ensures { IfSome result (λ relation. word.now ≡ relation_word relation) }
{
    match word {
        "equals" => Some(Relation::Equals),
        "subset" => Some(Relation::Subset),
        "apart" => Some(Relation::Apart),
        _ => None,
    }
}

/// A word and the letter of a map behind it.
fn word_and_name(text: &str) -> Option<(&str, Name)>
    ensures { IfSome result (λ parts. text.now ≡ parts.0.now ++ 32 ∷ letter parts.1 ∷ []) }
{
    let (word, name) = split_at_space(text)?;
    Some((word, name_of(name)?))
}

/// Two maps and what is made of them.
fn combination<K: NumberKey>(text: &str) -> Option<Command<K>>
    ensures { IfSome result (λ command. codes "= " ++ text.now ≡ words_of command) }
{
    let (first, rest) = front_name(text)?;
    let (word, second) = word_and_name(rest)?;
    match way_of(word) {
        Some(way) => Some(Command::Combine(way, first, second)),
        None => Some(Command::Keep(kept_of(word)?, first, second)),
    }
}

/// A command of a word and another map.
fn of_map<K: NumberKey>(words: &str) -> Option<Command<K>>
    ensures { IfSome result (λ command. words.now ≡ words_of command) }
{
    let (word, other) = word_and_name(words)?;
    match amendment_of(word) {
        Some(amendment) => Some(Command::Amend(amendment, other)),
        None => Some(Command::Compare(relation_of(word)?, other)),
    }
}

/// A command that names other maps.
fn of_maps<K: NumberKey>(words: &str) -> Option<Command<K>>
    ensures { IfSome result (λ command. words.now ≡ words_of command) }
{
    match split_at_space(words) {
        Some(("=", fields)) => combination(fields),
        _ => of_map(words),
    }
}

/// A command of a word and a key.
fn of_key<K: NumberKey>(word: &str, fields: &str) -> Option<Command<K>>
    ensures { IfSome result (λ command. word.now ≡ words_of command) }
{
    let key = key(fields)?;
    match word {
        "get" => Some(Command::Ask(Question::Get(key))),
        "at" => Some(Command::Ask(Question::At(key))),
        "has" => Some(Command::Ask(Question::Has(key))),
        "split" => Some(Command::Split(key)),
        _ => None,
    }
}

/// A command of a word and a range.
fn of_range<K: NumberKey>(word: &str, fields: &str) -> Option<Command<K>>
    ensures { IfSome result (λ command. word.now ≡ words_of command) }
{
    let range = range(fields)?;
    match word {
        "remove" => Some(Command::Change(Change::Remove(range))),
        "meets" => Some(Command::Ask(Question::Meets(range))),
        "all" => Some(Command::Ask(Question::All(range))),
        "over" => Some(Command::List(Listing::Over(range))),
        "free" => Some(Command::List(Listing::Free(range))),
        "pieces" => Some(Command::List(Listing::Pieces(range))),
        _ => None,
    }
}

/// A command of a word, a range and a number.
fn of_binding<K: NumberKey>(word: &str, fields: &str) -> Option<Command<K>>
    ensures { IfSome result (λ command. word.now ≡ words_of command) }
{
    let (range, value) = binding(fields)?;
    match word {
        "insert" => Some(Command::Change(Change::Insert(range, value))),
        "try" => Some(Command::Change(Change::Try(range, value))),
        _ => None,
    }
}

/// A command of a word and fields.
fn with_fields<K: NumberKey>(word: &str, fields: &str) -> Option<Command<K>>
    ensures { IfSome result (λ command. word.now ≡ words_of command) }
{
    match word {
        "insert" | "try" => of_binding(word, fields),
        "get" | "at" | "has" | "split" => of_key(word, fields),
        "drop" => Some(Command::Change(Change::Drop(number(fields)?))),
        _ => of_range(word, fields),
    }
}

/// A command of words that end with the line.
fn whole<K: NumberKey>(words: &str) -> Option<Command<K>>
    ensures { IfSome result (λ command. words.now ≡ words_of command) }
{
    match without_fields(words) {
        Some(command) => Some(command),
        None => of_maps(words),
    }
}

/// A command and its fields.
fn fielded<K: NumberKey>(alloc: Global, words: &str) -> Result<Command<K>, Unread>
    ensures read { IfOk result
        (λ command. (fields : List ℕ) × (words.now ≡ words_of command ++ fields)) }
    ensures memory { result ≡ Err Memory
        → (fields : List ℕ) × (words.now ≡ codes "from" ++ fields) }
{
    match split_at_space(words) {
        Some(("from", fields)) => Ok(Command::Change(Change::From(list(alloc, fields)?))),
        Some((word, fields)) => with_fields(word, fields).ok_or(Unread::Unknown),
        None => Err(Unread::Unknown),
    }
}

/// The map that a line names and its command.
pub fn parse<K: NumberKey>(alloc: Global, line: &str) -> Result<(Name, Command<K>), Unread>
    ensures read { IfOk result (λ said. Says line.now said.0 said.1) }
    ensures memory { result ≡ Err Memory
        → (name : Name) × BeginsWith line.now name (codes "from") }
{
    let Some((name, words)) = front_name(line) else {
        return Err(Unread::Unknown);
    };
    match whole(words) {
        Some(command) => Ok((name, command)),
        None => Ok((name, fielded(alloc, words)?)),
    }
}
