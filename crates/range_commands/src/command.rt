//! Lists of commands to a map.
ghost use Rattle.std.specs.Prelude.{◌≡◌, ℕ, ◌+◌, ◌*◌, ◌≤◌, length, IsOk, OnOk, OnErr, IfOk, Option, Some};
ghost use Rattle.std.specs.Option.{option_copied};
ghost use Rattle.range_algebra.specs.Range.{ClonesAreEqual, IsEmptyRange};
ghost use Rattle.range_runs.specs.Bindings.{Binds, IsBound};
ghost use Rattle.range_tree.specs.Holding.{box_items};
ghost use Rattle.range_tree.specs.declared.btree.searching.TheConstants.{MAX_ASKS};
ghost use Rattle.range_edit.specs.Costs.{TakesAtLeast, greatest_level};
ghost use Rattle.range_commands.specs.CountedRuns.{LookupTakes, TakesFor, IsRunOfDue, HasNoMemory};
ghost use Rattle.range_commands.specs.Runs.{IsInsertion, IsStep, AreSteps, HasNoUpdate};
ghost use Rattle.range_commands.specs.History.{BindOver};
ghost use Rattle.range_commands.specs.Tagged.{MayAnswerTo, MayBeAskedAll};
ghost use Rattle.range_commands.specs.declared.command.Command.TheVariants.{Update};

use range_algebra::any::AnyRange;
use range_keys::traits::{Measure, PartialEnum};
use range_map::map::{MapError, NotInserted, RangeMap, UpdateError};
use range_store::storage::{Item, Steps, Storage};
use range_tree::btree::BoxStorage;
use std::alloc::{AllocError, Global};

/// One call of a map.
///
/// An update has a tag, which tells the closure of all updates what this one is to do.
#[derive(Drop)]
pub enum Command<K, V, T> {
    /// Binds each key of the range to the value.
    Insert(AnyRange<K>, V),
    /// Binds each key of the range to the value, unless the range meets or touches a stored one.
    InsertDisconnected(AnyRange<K>, V),
    /// Binds no key of the range.
    Remove(AnyRange<K>),
    /// Binds each piece of the range to what the closure returns for it and the tag.
    Update(AnyRange<K>, T),
    /// Asks for a clone of the value at a key.
    Get(K),
    /// Asks whether a key is bound.
    Contains(K),
    /// Asks whether the range is nonempty and meets a stored one.
    Intersects(AnyRange<K>),
    /// Asks how many ranges are stored.
    Count,
}

/// What a call returned.
#[derive(Debug, Drop)]
#[derive_where(PartialEq, Eq; K: PartialEnum, V, E)]
pub enum Reply<K, V, E> {
    /// The change was done.
    Done,
    /// There was not enough memory, and nothing was changed.
    Memory,
    /// The range that was to be inserted meets or touches a stored one, and nothing was changed.
    /// The range and the value are handed back.
    Connected(AnyRange<K>, V),
    /// The closure returned this error for a piece, and nothing was changed.
    Closure(E),
    /// What the key is bound to.
    Value(Option<V>),
    /// Whether it is so.
    Truth(bool),
    /// How many ranges are stored.
    Count(usize),
}

/// A clone of the value at a key.
fn get_cloned<K: Measure, V: Eq + Clone, C: Storage<Item<AnyRange<K>, V>>>(
    map: &RangeMap<K, V, C>,
    key: K,
    steps: &mut Steps,
) -> Result<Option<V>, AllocError>
    requires values { ClonesAreEqual V.is_clone V.eq }
    ensures value { IfOk result (λ b. Binds K.order V.eq (C.items map.now) key b) }
    ensures refused { OnErr result (IsBound K.order (C.items map.now) key) }
    ensures takes { LookupTakes K.order (C.least_asks map.now) (C.most_asks map.now)
        (C.items map.now) ⊥ steps.old steps.new }
{
    match map.get_counted(key, steps) {
        Some(value) => Ok(Some(value.clone()?)),
        None => Ok(None),
    }
}

/// Does an update with a tag.
fn update_tagged<
    K: Measure + Clone,
    V: Eq + Clone,
    T: Drop,
    E: Drop,
    F: Fn(&T, Option<&V>) -> Result<Option<V>, E>,
    C: Storage<Item<AnyRange<K>, V>>,
>(map: &mut RangeMap<K, V, C>, range: AnyRange<K>, tag: T, f: &F) -> Reply<K, V, E>
    requires keys { ClonesAreEqual K.is_clone K.eq }
    requires values { ClonesAreEqual V.is_clone V.eq }
    requires callable { MayBeAskedAll F.Fn f.now }
    ensures { IsStep K.order V.eq (MayAnswerTo F.Fn f.now) (C.items map.old)
        (Update range tag) result (C.items map.new) }
{
    let answer_one = |old: Option<&V>| -> Result<Option<V>, E>
        requires { MayBeAskedAll F.Fn f.now }
        ensures { MayAnswerTo F.Fn f.entry.now tag (option_copied old.entry) result }
    { f(&tag, old) };
    match map.update(range, answer_one) {
        Ok(()) => Reply::Done,
        Err(UpdateError::Memory) => Reply::Memory,
        Err(UpdateError::Closure(error)) => Reply::Closure(error),
    }
}

/// Answers one command by the counted calls, where there is one.
fn answer_counted<
    K: Measure + Clone,
    V: Eq + Clone,
    T: Drop,
    E: Drop,
    F: Fn(&T, Option<&V>) -> Result<Option<V>, E>,
    C: Storage<Item<AnyRange<K>, V>>,
>(
    map: &mut RangeMap<K, V, C>,
    command: Command<K, V, T>,
    f: &F,
    steps: &mut Steps,
) -> Reply<K, V, E>
    requires keys { ClonesAreEqual K.is_clone K.eq }
    requires values { ClonesAreEqual V.is_clone V.eq }
    requires callable { MayBeAskedAll F.Fn f.now }
    ensures step { IsStep K.order V.eq (MayAnswerTo F.Fn f.now) (C.items map.old) command result
        (C.items map.new) }
    ensures takes { TakesFor K.order (C.least_asks map.old) (C.most_asks map.old)
        (C.items map.old) command result (C.items map.new) steps.old steps.new }
{
    match command {
        Command::Insert(range, value) => match map.insert_counted(range, value, steps) {
            Ok(()) => Reply::Done,
            Err(MapError::Memory) => Reply::Memory,
        },
        Command::InsertDisconnected(range, value) => {
            match map.insert_disconnected(range, value) {
                Ok(()) => Reply::Done,
                Err(NotInserted::Connected(range, value)) => Reply::Connected(range, value),
                Err(NotInserted::Memory(_, _)) => Reply::Memory,
            }
        }
        Command::Remove(range) => match map.remove_counted(range, steps) {
            Ok(()) => Reply::Done,
            Err(MapError::Memory) => Reply::Memory,
        },
        Command::Update(range, tag) => update_tagged(map, range, tag, f),
        Command::Get(key) => match get_cloned::<K, V, C>(map, key, steps) {
            Ok(value) => Reply::Value(value),
            Err(_) => Reply::Memory,
        },
        Command::Contains(key) => Reply::Truth(map.contains_key_counted(key, steps)),
        Command::Intersects(range) => Reply::Truth(map.intersects_counted(range, steps)),
        Command::Count => Reply::Count(map.range_count()),
    }
}

/// Answers one command, and allocates only what its call does.
///
/// An update asks `f` with its tag: `f` is the closure of all updates, told apart by their tags.
///
/// ```
/// // of a map that binds 0..=5 to 1, where `bound_to(tag, old)` is `Ok(Some(*tag))`
/// let reply = answer(map, Command::Update((3..9).into_range(), 7), &bound_to);
/// assert!(rt; reply == Reply::Done);
/// assert!(rt; map.get(8).copied() == Some(7));
/// ```
pub fn answer<
    K: Measure + Clone,
    V: Eq + Clone,
    T: Drop,
    E: Drop,
    F: Fn(&T, Option<&V>) -> Result<Option<V>, E>,
    C: Storage<Item<AnyRange<K>, V>>,
>(map: &mut RangeMap<K, V, C>, command: Command<K, V, T>, f: &F) -> Reply<K, V, E>
    requires keys { ClonesAreEqual K.is_clone K.eq }
    requires values { ClonesAreEqual V.is_clone V.eq }
    requires callable { MayBeAskedAll F.Fn f.now }
    ensures { IsStep K.order V.eq (MayAnswerTo F.Fn f.now) (C.items map.old) command result
        (C.items map.new) }
{
    match command {
        // Takes no search before or after all ranges, which the counted call does.
        Command::Insert(range, value) => match map.insert(range, value) {
            Ok(()) => Reply::Done,
            Err(MapError::Memory) => Reply::Memory,
        },
        command => answer_counted(map, command, f, &mut Steps::new()),
    }
}

/// Answers the commands in turn, one reply each.
///
/// Reserves capacity for all replies first: where that fails, nothing is done. A command that is
/// refused later gets the reply `Memory`, `Connected` or `Closure`, changes nothing, and the others
/// follow. An update asks `f` with its tag.
///
/// ```
/// let commands = vec![in alloc; Command::Update((3..9).into_range(), 7), Command::Get(8)]?;
/// let replies = run(alloc, map, commands, &bound_to)?; // `Done` and `Value(Some(7))`
/// ```
pub fn run<
    K: Measure + Clone,
    V: Eq + Clone,
    T: Drop,
    E: Drop,
    F: Fn(&T, Option<&V>) -> Result<Option<V>, E>,
    C: Storage<Item<AnyRange<K>, V>>,
>(
    alloc: Global,
    map: &mut RangeMap<K, V, C>,
    commands: Vec<Command<K, V, T>>,
    f: &F,
) -> Result<Vec<Reply<K, V, E>>, MapError>
    requires keys { ClonesAreEqual K.is_clone K.eq }
    requires values { ClonesAreEqual V.is_clone V.eq }
    requires callable { MayBeAskedAll F.Fn f.now }
    ensures chain { IfOk result
        (λ replies. AreSteps K.order V.eq (MayAnswerTo F.Fn f.now)
        (C.items map.old) commands.items replies.items (C.items map.new)) }
    ensures history { IfOk result (λ replies. (k : K) → K.order.is_key k → (b : Option V)
        → Binds K.order V.eq (C.items map.new) k b
        → BindOver K.order V.eq (MayAnswerTo F.Fn f.now) k
        (λ u. Binds K.order V.eq (C.items map.old) k u) commands.items replies.items b) }
    ensures few { HasNoUpdate commands.items
        → length (C.items map.new) ≤ length (C.items map.old) + 2 * length commands.items }
    ensures refused { OnErr result (C.items map.new ≡ C.items map.old) }
{
    let mut replies = Vec::with_capacity(alloc, commands.len())?;
    for command in commands {
        let reply = answer(map, command, f);
        match replies.push(reply) {
            Ok(()) => (),
            Err(_) => unreachable!(),
        }
    }
    Ok(replies)
}

/// Answers the commands in turn as `run` does; adds the steps that they take.
///
/// An insertion, a removal and a look-up take the steps of their counted calls, and no other
/// command takes any.
///
/// ```
/// let commands = vec![in alloc; Command::Insert((3..9).into_range(), 7), Command::Get(8)]?;
/// let replies = run_counted(alloc, map, commands, &bound_to, steps)?; // `Done`, `Value(Some(7))`
/// ```
pub fn run_counted<
    K: Measure + Clone,
    V: Eq + Clone,
    T: Drop,
    E: Drop,
    F: Fn(&T, Option<&V>) -> Result<Option<V>, E>,
>(
    alloc: Global,
    map: &mut RangeMap<K, V, BoxStorage<Item<AnyRange<K>, V>>>,
    commands: Vec<Command<K, V, T>>,
    f: &F,
    steps: &mut Steps,
) -> Result<Vec<Reply<K, V, E>>, MapError>
    requires keys { ClonesAreEqual K.is_clone K.eq }
    requires values { ClonesAreEqual V.is_clone V.eq }
    requires callable { MayBeAskedAll F.Fn f.now }
    ensures chain { IfOk result
        (λ replies. AreSteps K.order V.eq (MayAnswerTo F.Fn f.now)
        (box_items map.old) commands.items replies.items (box_items map.new)) }
    ensures history { IfOk result (λ replies. (k : K) → K.order.is_key k → (b : Option V)
        → Binds K.order V.eq (box_items map.new) k b
        → BindOver K.order V.eq (MayAnswerTo F.Fn f.now) k
        (λ u. Binds K.order V.eq (box_items map.old) k u) commands.items replies.items b) }
    ensures few { HasNoUpdate commands.items
        → length (box_items map.new) ≤ length (box_items map.old) + 2 * length commands.items }
    ensures refused { OnErr result (box_items map.new ≡ box_items map.old) }
    ensures most { IfOk result (λ replies. HasNoUpdate commands.items → HasNoMemory replies.items
        → steps.new ≤ steps.old + length commands.items *
        (2 * MAX_ASKS * greatest_level
        (length (box_items map.old) + 2 * length commands.items + 1) + 10) + 2 * length
        (box_items map.old)) }
    ensures least { IfOk result (λ replies. (due : ℕ)
        × IsRunOfDue K.order V.eq (MayAnswerTo F.Fn f.now)
        (box_items map.old) commands.items replies.items (box_items map.new) due
        × TakesAtLeast steps.old steps.new due) }
    ensures refused_steps { OnErr result (steps.new ≡ steps.old) }
{
    let mut replies = Vec::with_capacity(alloc, commands.len())?;
    for command in commands {
        let reply = answer_counted(map, command, f, steps);
        match replies.push(reply) {
            Ok(()) => (),
            Err(_) => unreachable!(),
        }
    }
    Ok(replies)
}
