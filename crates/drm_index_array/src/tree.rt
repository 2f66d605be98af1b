//! The tree of nodes.

ghost use Rattle.std.specs.Prelude.{◌≡◌, ℕ, ◌+◌, ◌-◌, ◌*◌, ◌^◌, ◌<◌, ◌≤◌, ◌/◌, ◌%◌, ◌↔◌, ◌==◌, if◌then◌else◌, IsTrue, OnSome, IsSome, is_some, not, nat_lt, option_map, Some, None, true, false, option_copied, OnOk, OnErr, IfOk, IfErr, IfSome, IfNone};
ghost use Rattle.std.specs.FinMap as map;
ghost use Rattle.drm_index_array.specs.Least.{least, IsLeastFrom};
ghost use Rattle.drm_index_array.specs.Position.{passing, IsPlaced};
ghost use Rattle.drm_index_array.specs.Word.{tells_of, AreWords};
ghost use Rattle.drm_index_array.specs.Marked.{with_mark, unmarked, write_mark};
ghost use Rattle.drm_index_array.specs.InsertFault.{value_of, IsTaken};
ghost use Rattle.drm_index_array.specs.Tree.{width, span, is_sought};
ghost use Rattle.drm_index_array.specs.Slots.{option_marked, Fits, IsUsed, below, entries_below, has_below};
ghost use Rattle.drm_index_array.specs.declared.marks.Mark.{Mark};
ghost use Rattle.drm_index_array.specs.declared.words.Sought.TheVariants.{Vacant as Free, Marked as WithMark};
ghost use Rattle.drm_index_array.specs.declared.tree.Slot.TheVariants as slots;
ghost use Rattle.std.specs.Option.{option_copied_mut};

use crate::entry::Entry;
use crate::faults::InsertFault;
use crate::marks::Mark;
use crate::places::{first_past, parts, place, start};
use crate::spares::Spares;
use crate::words::{Sought, Words, first_one, with_bit};
use std::alloc::{AllocError, Global};
use std::marker::Model;
use std::mem;

#[derive(Drop)]
#[cycle(tree)]
enum Slot<T> {
    Vacant,
    Value(Entry<T>),
    Child(Box<Node<T>>),
}

#[derive(Drop)]
#[cycle(tree)]
pub struct Node<T> {
    // 0 for a node of values; a child's is one less.
    height: u32,
    slots: Vec<Slot<T>>,
    words: Words,
    // The entries below it.
    count: usize,
}

impl<T> Model for Node<T> {
    ghost use Rattle.drm_index_array.specs.Tree.{Tree, tree_code};

    ghost Value = { Tree T };

    ghost coded = { tree_code T.code };

    ghost use Rattle.drm_index_array.specs.Slots.{view_of, IsNode};

    ghost view = { λ a. view_of a.height a.slots.items };

    ghost invariant = { λ a. IsNode a.height a.slots.items a.words a.count };

    ghost size = { λ t. t.height };

    ghost use Rattle.drm_index_array.specs.SlotsFall.{height_falls};

    ghost size_decreases = { λ a h. height_falls a h };
}

/// Returns whether some index below a slot is sought.
fn any_below<T>(slot: &Slot<T>, height: u32, sought: Sought) -> bool
    requires { Fits height slot.now }
    ensures { result ≡ has_below height slot.now sought }
{
    match slot {
        Slot::Vacant => matches!(sought, Sought::Vacant),
        Slot::Value(entry) => entry.is_sought(sought),
        Slot::Child(child) => child.any(sought),
    }
}

/// Returns the number of entries below a slot.
fn count_below<T>(slot: &Slot<T>) -> usize
    ensures { (height : ℕ) → Fits height slot.now → result ≡ entries_below height slot.now }
{
    match slot {
        Slot::Vacant => 0,
        Slot::Value(_) => 1,
        Slot::Child(child) => child.len(),
    }
}

/// Returns the words of a node, once one slot was written.
fn refreshed<T>(words: &Words, height: u32, slot: &Slot<T>, at: usize) -> Words
    requires words { AreWords words.now }
    requires slot { at < 64 }
    requires fits { Fits height slot.now }
    ensures words { AreWords result }
    ensures tells { (x : Sought) (i : ℕ) → i < 64 → tells_of result x i ≡ (if i == at then has_below height slot.now x else tells_of words.now x i) }
{
    Words {
        present: with_bit(words.present, at, any_below(slot, height, Sought::Taken)),
        full: with_bit(words.full, at, !any_below(slot, height, Sought::Vacant)),
        m0: with_bit(
            words.m0,
            at,
            any_below(slot, height, Sought::Marked(Mark::M0)),
        ),
        m1: with_bit(
            words.m1,
            at,
            any_below(slot, height, Sought::Marked(Mark::M1)),
        ),
        m2: with_bit(
            words.m2,
            at,
            any_below(slot, height, Sought::Marked(Mark::M2)),
        ),
    }
}

/// Writes the words of a node for one slot, once an entry below it was removed.
fn reduce<T>(words: &mut Words, height: u32, slot: &Slot<T>, at: usize)
    requires words { AreWords words.old }
    requires slot { at < 64 }
    requires fits { Fits height slot.now }
    requires vacant { has_below height slot.now Free ≡ true }
    requires unmarked { (m : Mark) → tells_of words.old (WithMark m) at ≡ false → has_below height slot.now (WithMark m) ≡ false }
    ensures words { AreWords words.new }
    ensures tells { (x : Sought) (i : ℕ) → i < 64 → tells_of words.new x i ≡ (if i == at then has_below height slot.now x else tells_of words.old x i) }
{
    if words.has_marks() {
        *words = refreshed(words, height, slot, at);
        return;
    }
    let is_used = any_below(slot, height, Sought::Taken);
    words.remove(at, is_used);
}

impl<T> Node<T> {
    pub fn height(&self) -> u32
        ensures height { result ≡ self.now.height }
        ensures low { result ≤ 5 }
    {
        self.height
    }

    /// Returns the number of entries.
    pub fn len(&self) -> usize
        ensures len { result ≡ map.len self.now.items }
        ensures past { (k : ℕ) → span self.now.height ≤ k → map.get self.now.items k ≡ None }
    {
        self.count
    }

    /// Returns whether the index is low enough to lie below the node.
    pub fn covers(&self, index: u64) -> bool
        ensures covers { IsTrue result ↔ (index < span self.now.height) }
        ensures past { (k : ℕ) → span self.now.height ≤ k → map.get self.now.items k ≡ None }
        ensures few { map.len self.now.items ≤ 2 ^ 36 }
    {
        index >> (6 * self.height) < 64
    }

    /// Returns whether there is no entry.
    pub fn is_empty(&self) -> bool
        ensures { IsTrue result ↔ (map.len self.now.items ≡ 0) }
    {
        self.count == 0
    }

    /// Returns whether each index below the node has an entry.
    fn is_full(&self) -> bool
        ensures { result ≡ not (is_some (least (λ i. is_sought Free (map.get self.now.items i)) 0 (span self.now.height - 1))) }
    {
        !self.any(Sought::Vacant)
    }

    /// Returns the entry at the index, if there is one.
    pub fn find(&self, index: u64) -> Option<&Entry<T>>
        ensures entry { option_marked (option_copied result) ≡ map.get self.now.items index }
        ensures within { OnSome result (index < span self.now.height) }
    {
        if !self.covers(index) {
            return None;
        }
        let mut node = self;
        let mut level = self.height;
        loop {
            match node.slot_at(level, index) {
                Slot::Vacant => return None,
                Slot::Value(entry) => return Some(entry),
                Slot::Child(child) => {
                    node = child;
                    level -= 1;
                }
            }
        }
    }

    /// Returns the lowest index not below `from` that is sought, of those that lie below the node.
    pub fn first(&self, sought: Sought, from: u64) -> Option<u64>
        ensures first { result ≡ least (λ i. is_sought sought (map.get self.now.items i)) from (span self.now.height - 1) }
        ensures past { (k : ℕ) → span self.now.height ≤ k → map.get self.now.items k ≡ None }
    {
        if !self.covers(from) {
            return None;
        }
        self.next(sought, from)
    }

    /// Returns the lowest index not below `from` that has no entry, of all.
    pub fn next_vacant(&self, from: u64) -> u64
        ensures { IsLeastFrom (λ i. not (map.contains_key self.now.items i)) from result }
    {
        if !self.covers(from) {
            return from;
        }
        match self.next(Sought::Vacant, from) {
            Some(found) => found,
            None => first_past(self.height),
        }
    }

    /// Returns the slot where an index lies, whatever lies above the node.
    fn slot_at(&self, level: u32, index: u64) -> &Slot<T>
        requires { level ≡ self.now.height }
        ensures fits { Fits level result.now }
        ensures below { below result.now (index % width level) ≡ map.get self.now.items (index % span level) }
    {
        &self.slots[place(level, index)]
    }

    /// Returns the lowest index not below `from` that is sought.
    #[cycle(search)]
    fn next(&self, sought: Sought, from: u64) -> Option<u64>
        requires { from < span self.now.height }
        ensures { result ≡ least (λ i. is_sought sought (map.get self.now.items i)) from (span self.now.height - 1) }
    {
        let (at, rest) = parts(self.height, from);
        if let Some(found) = self.next_in(at, sought, rest) {
            return Some(found);
        }
        if at == 63 {
            return None;
        }
        let at = first_one(self.words.word(sought), at as u32 + 1)?;
        self.next_in(at as usize, sought, 0)
    }

    /// Returns the same in one slot.
    #[cycle(search)]
    fn next_in(&self, at: usize, sought: Sought, rest: u64) -> Option<u64>
        requires slot { at < 64 }
        requires rest { rest < width self.now.height }
        ensures { result ≡ least (λ i. is_sought sought (map.get self.now.items i)) (at * width self.now.height + rest) (at * width self.now.height + (width self.now.height - 1)) }
    {
        if self.words.word(sought) >> at & 1 == 0 {
            return None;
        }
        let base = start(self.height, at);
        match &self.slots[at] {
            Slot::Vacant => match sought {
                Sought::Vacant => Some(base + rest),
                _ => None,
            },
            Slot::Value(entry) => {
                if entry.is_sought(sought) {
                    Some(base + rest)
                } else {
                    None
                }
            }
            Slot::Child(child) => match child.next(sought, rest) {
                Some(found) => Some(base + found),
                None => None,
            },
        }
    }

    /// Returns the index at a position among those that have an entry, from 0, in rising order. Whole slots are skipped
    /// by the number of entries below them.
    pub fn nth(&self, position: usize) -> Option<u64>
        ensures placed { IsPlaced (map.contains_key self.now.items) (span self.now.height) position result }
        ensures past { (k : ℕ) → span self.now.height ≤ k → map.get self.now.items k ≡ None }
    {
        let height = self.height;
        let Some((at, position)) = self.slot_of(position) else {
            return None;
        };
        let base = start(height, at);
        match &self.slots[at] {
            Slot::Vacant => None,
            Slot::Value(_) => Some(base),
            Slot::Child(child) => match child.nth(position) {
                Some(found) => Some(base + found),
                None => None,
            },
        }
    }

    /// Returns the slot below which the index at a place lies, and its place among those below that slot.
    fn slot_of(&self, position: usize) -> Option<(usize, usize)>
        ensures slot { IfSome result (λ found. found.0 < 64) }
        ensures before { IfSome result (λ found. passing (map.contains_key self.now.items) 0 (found.0 * width self.now.height) + found.1 ≡ position) }
        ensures within { IfSome result (λ found. found.1 < passing (map.contains_key self.now.items) (found.0 * width self.now.height) (width self.now.height)) }
        ensures past { IfNone result (passing (map.contains_key self.now.items) 0 (span self.now.height) ≤ position) }
    {
        if let Some(found) = self.slot_behind_full(position) {
            return Some(found);
        }
        let mut left = position;
        for at in 0..64usize {
            let here = count_below(&self.slots[at]);
            if left < here {
                return Some((at, left));
            }
            left -= here;
        }
        None
    }

    /// Returns the same if each slot before it is full, and maybe none otherwise. No slot is visited but this one.
    fn slot_behind_full(&self, position: usize) -> Option<(usize, usize)>
        ensures slot { IfSome result (λ found. found.0 < 64) }
        ensures before { IfSome result (λ found. passing (map.contains_key self.now.items) 0 (found.0 * width self.now.height) + found.1 ≡ position) }
        ensures within { IfSome result (λ found. found.1 < passing (map.contains_key self.now.items) (found.0 * width self.now.height) (width self.now.height)) }
    {
        let (at, left) = parts(self.height, position as u64);
        let left = left as usize;
        if at >= 64 || at > self.words.full_slots() {
            return None;
        }
        if left >= count_below(&self.slots[at]) {
            return None;
        }
        Some((at, left))
    }

    /// Returns whether some index is sought.
    fn any(&self, sought: Sought) -> bool
        ensures any { result ≡ is_some (least (λ i. is_sought sought (map.get self.now.items i)) 0 (span self.now.height - 1)) }
        ensures past { (k : ℕ) → span self.now.height ≤ k → map.get self.now.items k ≡ None }
    {
        first_one(self.words.word(sought), 0).is_some()
    }
}

impl<T: Drop> Node<T> {
    ghost use Rattle.drm_index_array.specs.Marked.{get};

    /// Returns a node with no entry.
    pub fn new(alloc: Global, height: u32) -> Result<Node<T>, AllocError>
        requires { height ≤ 5 }
        ensures { IfOk result (λ node. node ≡ record { height = height; items = map.empty }) }
    {
        let mut slots = Vec::new(alloc);
        slots.resize_with(64, || Slot::Vacant)?;
        Ok(Node {
            height,
            slots,
            words: Words::none(),
            count: 0,
        })
    }

    /// Adds an entry with no mark at an index that has none, and returns whether each index below the node has an entry
    /// now; or returns the value.
    pub fn insert(
        &mut self,
        alloc: Global,
        spares: &mut Spares<T>,
        index: u64,
        value: T,
    ) -> Result<bool, InsertFault<T>>
        requires { index < span self.old.height }
        ensures height { self.new.height ≡ self.old.height }
        ensures ok { OnOk result (self.new.items ≡ map.insert self.old.items index (unmarked value)) }
        ensures full { IfOk result (λ is_full. is_full ≡ not (is_some (least (λ i. is_sought Free (map.get self.new.items i)) 0 (span self.new.height - 1)))) }
        ensures err { OnErr result (self.new ≡ self.old) }
        ensures returned { IfErr result (λ fault. value_of fault ≡ value) }
        ensures absent { OnOk result (map.get self.old.items index ≡ None) }
        ensures taken { IfErr result (λ fault. IsTaken fault ↔ IsSome (map.get self.old.items index)) }
    {
        match self.height {
            0 => self.fill::<Lowest>(alloc, spares, 0, index, value),
            1 => self.fill::<Above<Lowest>>(alloc, spares, 1, index, value),
            2 => self.fill::<Above<Above<Lowest>>>(alloc, spares, 2, index, value),
            3 => self.fill::<Above<Above<Above<Lowest>>>>(alloc, spares, 3, index, value),
            4 => self.fill::<Above<Above<Above<Above<Lowest>>>>>(alloc, spares, 4, index, value),
            5 => self.fill::<Above<Above<Above<Above<Above<Lowest>>>>>>(
                alloc, spares, 5, index, value,
            ),
            _ => unreachable!(),
        }
    }

    /// Adds an entry as `insert` does, in a node of this level.
    fn fill<L: Level>(
        &mut self,
        alloc: Global,
        spares: &mut Spares<T>,
        level: u32,
        index: u64,
        value: T,
    ) -> Result<bool, InsertFault<T>>
        requires level { level ≡ L.height }
        requires low { level ≤ 5 }
        requires height { self.old.height ≡ L.height }
        requires index { index < span self.old.height }
        ensures height { self.new.height ≡ self.old.height }
        ensures ok { OnOk result (self.new.items ≡ map.insert self.old.items index (unmarked value)) }
        ensures full { IfOk result (λ is_full. is_full ≡ not (is_some (least (λ i. is_sought Free (map.get self.new.items i)) 0 (span self.new.height - 1)))) }
        ensures err { OnErr result (self.new ≡ self.old) }
        ensures returned { IfErr result (λ fault. value_of fault ≡ value) }
        ensures absent { OnOk result (map.get self.old.items index ≡ None) }
        ensures taken { IfErr result (λ fault. IsTaken fault ↔ IsSome (map.get self.old.items index)) }
    {
        let (at, rest) = parts(level, index);
        let is_full = match L::fill(alloc, spares, &mut self.slots[at], level, rest, value) {
            Ok(is_full) => is_full,
            Err(fault) => return Err(fault),
        };
        self.words.add(at, is_full);
        self.count += 1;
        let has_vacant = first_one(self.words.word(Sought::Vacant), 0).is_some();
        Ok(!has_vacant)
    }

    /// Removes the entry at the index, if there is one. Does not allocate. Each node below that became empty is kept or
    /// dropped.
    pub fn remove(&mut self, spares: &mut Spares<T>, index: u64) -> Option<T>
        requires { index < span self.old.height }
        ensures height { self.new.height ≡ self.old.height }
        ensures items { self.new.items ≡ map.remove self.old.items index }
        ensures value { result ≡ get self.old.items index }
    {
        match self.height {
            0 => self.cut::<Lowest>(spares, 0, index),
            1 => self.cut::<Above<Lowest>>(spares, 1, index),
            2 => self.cut::<Above<Above<Lowest>>>(spares, 2, index),
            3 => self.cut::<Above<Above<Above<Lowest>>>>(spares, 3, index),
            4 => self.cut::<Above<Above<Above<Above<Lowest>>>>>(spares, 4, index),
            5 => self.cut::<Above<Above<Above<Above<Above<Lowest>>>>>>(spares, 5, index),
            _ => unreachable!(),
        }
    }

    /// Removes an entry as `remove` does, in a node of this level.
    fn cut<L: Level>(&mut self, spares: &mut Spares<T>, level: u32, index: u64) -> Option<T>
        requires level { level ≡ L.height }
        requires low { level ≤ 5 }
        requires height { self.old.height ≡ L.height }
        requires index { index < span self.old.height }
        ensures height { self.new.height ≡ self.old.height }
        ensures items { self.new.items ≡ map.remove self.old.items index }
        ensures value { result ≡ get self.old.items index }
    {
        let (at, rest) = parts(level, index);
        let Some(value) = L::cut(spares, &mut self.slots[at], level, rest) else {
            return None;
        };
        self.count -= 1;
        reduce(&mut self.words, level, &self.slots[at], at);
        Some(value)
    }

    /// Puts a subtree into the first slot.
    pub fn hang(&mut self, child: Box<Node<T>>)
        requires lower { child.value.height + 1 ≡ self.old.height }
        requires used { 0 < map.len child.value.items }
        ensures height { self.new.height ≡ self.old.height }
        ensures items { (k : ℕ) → map.get self.new.items k ≡ (if nat_lt k (width self.old.height) then map.get child.value.items k else map.get self.old.items k) }
    {
        let others = self.count - count_below(&self.slots[0]);
        self.slots[0] = Slot::Child(child);
        self.count = others + count_below(&self.slots[0]);
        self.words = refreshed(&self.words, self.height, &self.slots[0], 0);
    }

    /// Writes the mark of the entry at the index, if there is one.
    #[cycle(mark)]
    pub fn write_mark(&mut self, index: u64, mark: Mark, on: bool)
        requires { index < span self.old.height }
        ensures height { self.new.height ≡ self.old.height }
        ensures items { self.new.items ≡ write_mark self.old.items index mark on }
    {
        let (at, rest) = parts(self.height, index);
        let slot = mem::replace(&mut self.slots[at], Slot::Vacant);
        let slot = marked_slot(slot, self.height, rest, mark, on);
        self.slots[at] = slot;
        self.words = refreshed(&self.words, self.height, &self.slots[at], at);
    }
}

/// Returns a node of this level with one entry, with no mark. If memory is refused, it returns the value.
fn planted<L: Level, T: Drop>(
    alloc: Global,
    spares: &mut Spares<T>,
    level: u32,
    index: u64,
    value: T,
) -> Result<Box<Node<T>>, T>
    requires level { level ≡ L.height }
    requires low { level ≤ 5 }
    requires index { index < span L.height }
    ensures height { IfOk result (λ node. node.value.height ≡ L.height) }
    ensures items { IfOk result (λ node. node.value.items ≡ map.insert map.empty index (unmarked value)) }
    ensures returned { IfErr result (λ v. v ≡ value) }
{
    let Ok(mut node) = spares.blank(alloc, level) else {
        return Err(value);
    };
    if let Err(fault) = node.fill::<L>(alloc, spares, level, index, value) {
        return Err(fault.into_value());
    }
    Ok(node)
}

/// Removes the entry at an index below a slot above this level, if there is one.
fn cut_child<L: Level, T: Drop>(
    spares: &mut Spares<T>,
    slot: &mut Slot<T>,
    level: u32,
    rest: u64,
) -> Option<T>
    requires level { level ≡ L.height }
    requires low { level ≤ 5 }
    requires fits { Fits (L.height + 1) slot.old }
    requires rest { rest < width (L.height + 1) }
    ensures fits { Fits (L.height + 1) slot.new }
    ensures below { (r : ℕ) → below slot.new r ≡ (if r == rest then None else below slot.old r) }
    ensures value { result ≡ option_map (λ s. s.value) (below slot.old rest) }
{
    match slot {
        Slot::Child(child) => child.cut::<L>(spares, level, rest),
        Slot::Value(_) => unreachable!(),
        Slot::Vacant => None,
    }
}

/// Returns whether a subtree with no entry lies in a slot.
fn is_hollow<T>(slot: &Slot<T>) -> bool
    ensures used { result ≡ false → IsUsed slot.now }
    ensures none { result ≡ true → (r : ℕ) → below slot.now r ≡ None }
{
    match slot {
        Slot::Child(child) => child.is_empty(),
        _ => false,
    }
}

/// Makes a slot vacant, and keeps the node that lies in it.
fn set_aside<T: Drop>(spares: &mut Spares<T>, slot: &mut Slot<T>)
    ensures { slot.new ≡ slots.Vacant }
{
    if let Slot::Child(child) = mem::replace(slot, Slot::Vacant) {
        spares.keep(child);
    }
}

/// Returns the slot, once the mark of the entry at an index below it was written, if there is one.
#[cycle(mark)]
fn marked_slot<T: Drop>(slot: Slot<T>, height: u32, rest: u64, mark: Mark, on: bool) -> Slot<T>
    requires fits { Fits height slot }
    requires used { IsUsed slot }
    requires rest { rest < width height }
    ensures fits { Fits height result }
    ensures used { IsUsed result }
    ensures below { (r : ℕ) → r < width height → below result r ≡ (if r == rest then option_map (λ s. with_mark s mark on) (below slot rest) else below slot r) }
{
    match slot {
        Slot::Vacant => Slot::Vacant,
        Slot::Value(mut entry) => {
            entry.write_mark(mark, on);
            Slot::Value(entry)
        }
        Slot::Child(mut child) => {
            child.write_mark(rest, mark, on);
            Slot::Child(child)
        }
    }
}

/// The height of the node that a slot is in, as a type. A function that calls itself cannot lend a `&mut` on, but a
/// function of one level can lend it on to that of the level below. An insertion and a removal go by levels, too, so that
/// a compiler can inline them.
trait Level {
    ghost use Rattle.std.specs.Prelude.{ℕ};
    ghost use Rattle.std.specs.Borrow.{sem};
    ghost use Rattle.drm_index_array.specs.Lends.{lends_slot};

    ghost height: { ℕ };

    /// Returns the value at an index below the slot for writing, if there is one.
    fn lend<T>(slot: &mut Slot<T>, level: u32, rest: u64) -> Option<&mut T>
        requires level { level ≡ height }
        requires low { level ≤ 5 }
        requires fits { Fits height slot.old }
        requires rest { rest < width height }
        ensures* writes_back { sem 𝓛 (lends_slot T.row slot.entry rest result) }
        ensures value { option_copied_mut result ≡ option_map (λ s. s.value) (below slot.old rest) };

    /// Removes the entry at an index below the slot, if there is one, and a subtree that became empty.
    fn cut<T: Drop>(spares: &mut Spares<T>, slot: &mut Slot<T>, level: u32, rest: u64) -> Option<T>
        requires level { level ≡ height }
        requires low { level ≤ 5 }
        requires fits { Fits height slot.old }
        requires used { IsUsed slot.old }
        requires rest { rest < width height }
        ensures fits { Fits height slot.new }
        ensures used { IsUsed slot.new }
        ensures below { (r : ℕ) → r < width height → below slot.new r ≡ (if r == rest then None else below slot.old r) }
        ensures value { result ≡ option_map (λ s. s.value) (below slot.old rest) };

    /// Adds an entry with no mark at an index below the slot that has none, and returns whether no index below the slot
    /// is vacant; or returns the value. All nodes that the entry needs are created before the first is linked.
    fn fill<T: Drop>(
        alloc: Global,
        spares: &mut Spares<T>,
        slot: &mut Slot<T>,
        level: u32,
        rest: u64,
        value: T,
    ) -> Result<bool, InsertFault<T>>
        requires level { level ≡ height }
        requires low { level ≤ 5 }
        requires fits { Fits height slot.old }
        requires rest { rest < width height }
        ensures fits { Fits height slot.new }
        ensures used { OnOk result (IsUsed slot.new) }
        ensures below { OnOk result ((r : ℕ) → r < width height → below slot.new r ≡ (if r == rest then Some (unmarked value) else below slot.old r)) }
        ensures full { IfOk result (λ is_full. is_full ≡ not (has_below height slot.new Free)) }
        ensures err { OnErr result (slot.new ≡ slot.old) }
        ensures returned { IfErr result (λ fault. value_of fault ≡ value) }
        ensures absent { OnOk result (below slot.old rest ≡ None) }
        ensures taken { IfErr result (λ fault. IsTaken fault ↔ IsSome (below slot.old rest)) };
}

/// The slots of values.
struct Lowest;

/// The slots above nodes of this level.
struct Above<L> {
    below: L,
}

impl Level for Lowest {
    ghost height = { 0 };

    fn lend<T>(slot: &mut Slot<T>, _level: u32, _rest: u64) -> Option<&mut T> {
        match slot {
            Slot::Value(entry) => Some(entry.value_mut()),
            _ => None,
        }
    }

    fn cut<T: Drop>(
        _spares: &mut Spares<T>,
        slot: &mut Slot<T>,
        _level: u32,
        _rest: u64,
    ) -> Option<T> {
        match mem::replace(slot, Slot::Vacant) {
            Slot::Vacant => None,
            Slot::Value(entry) => Some(entry.value),
            Slot::Child(_) => unreachable!(),
        }
    }

    fn fill<T: Drop>(
        _alloc: Global,
        _spares: &mut Spares<T>,
        slot: &mut Slot<T>,
        _level: u32,
        _rest: u64,
        value: T,
    ) -> Result<bool, InsertFault<T>> {
        match slot {
            Slot::Value(_) => Err(InsertFault::Taken(value)),
            Slot::Child(_) => unreachable!(),
            Slot::Vacant => {
                *slot = Slot::Value(Entry {
                    value,
                    m0: false,
                    m1: false,
                    m2: false,
                });
                Ok(true)
            }
        }
    }
}

impl<L: Level> Level for Above<L> {
    ghost height = { L.height + 1 };

    fn lend<T>(slot: &mut Slot<T>, level: u32, rest: u64) -> Option<&mut T> {
        match slot {
            Slot::Child(child) => child.lend::<L>(level - 1, rest),
            _ => None,
        }
    }

    fn cut<T: Drop>(
        spares: &mut Spares<T>,
        slot: &mut Slot<T>,
        level: u32,
        rest: u64,
    ) -> Option<T> {
        let value = cut_child::<L, T>(spares, slot, level - 1, rest);
        if is_hollow(slot) {
            set_aside(spares, slot);
        }
        value
    }

    fn fill<T: Drop>(
        alloc: Global,
        spares: &mut Spares<T>,
        slot: &mut Slot<T>,
        level: u32,
        rest: u64,
        value: T,
    ) -> Result<bool, InsertFault<T>> {
        match slot {
            Slot::Child(child) => child.fill::<L>(alloc, spares, level - 1, rest, value),
            Slot::Value(_) => unreachable!(),
            Slot::Vacant => match planted::<L, T>(alloc, spares, level - 1, rest, value) {
                Ok(child) => {
                    let is_full = child.is_full();
                    *slot = Slot::Child(child);
                    Ok(is_full)
                }
                Err(value) => Err(InsertFault::NoMemory(value)),
            },
        }
    }
}

impl<T> Node<T> {
    ghost use Rattle.std.specs.Borrow.{sem};
    ghost use Rattle.drm_index_array.specs.Lends.{lends_node};
    ghost use Rattle.drm_index_array.specs.Marked.{get};

    /// Returns the value at the index for writing, if there is one, in a node of this level.
    fn lend<L: Level>(&mut self, level: u32, index: u64) -> Option<&mut T>
        requires level { level ≡ L.height }
        requires low { level ≤ 5 }
        requires height { self.old.height ≡ L.height }
        requires index { index < span self.old.height }
        ensures* writes_back { sem 𝓛 (lends_node T.row self.entry index result) }
        ensures value { option_copied_mut result ≡ get self.old.items index }
    {
        let (at, rest) = parts(level, index);
        L::lend(&mut self.slots[at], level, rest)
    }

    /// Returns the height of a node that covers the index; 6 for one that does not.
    fn level_of(&self, index: u64) -> u32
        ensures height { result ≤ 5 → (result ≡ self.now.height) × (index < span self.now.height) }
        ensures none { 5 < result → map.get self.now.items index ≡ None }
    {
        if !self.covers(index) {
            return 6;
        }
        self.height
    }

    /// Returns the value at the index for writing, if there is one. The entry keeps its marks.
    pub fn get_mut(&mut self, index: u64) -> Option<&mut T>
        ensures* writes_back { sem 𝓛 (lends_node T.row self.entry index result) }
        ensures value { option_copied_mut result ≡ get self.old.items index }
    {
        match self.level_of(index) {
            0 => self.lend::<Lowest>(0, index),
            1 => self.lend::<Above<Lowest>>(1, index),
            2 => self.lend::<Above<Above<Lowest>>>(2, index),
            3 => self.lend::<Above<Above<Above<Lowest>>>>(3, index),
            4 => self.lend::<Above<Above<Above<Above<Lowest>>>>>(4, index),
            5 => self.lend::<Above<Above<Above<Above<Above<Lowest>>>>>>(5, index),
            _ => None,
        }
    }
}
