//! `Queue`: what stands on a wire, first in first out.
ghost use Rattle.std.specs.Prelude.{◌≡◌, ◌≤◌, ◌<◌, ◌+◌, ◌^◌, ◌-◌, ◌++◌, ◌∷◌, ◌↔◌, [], length, take, drop, slice_set, IsTrue, OnOk, OnErr};

use rio_chars::{Char, NoMemory};
use std::alloc::Global;
use std::marker::Model;

/// How many characters move at a time where they move up.
const BLOCK: usize = 256;

/// Items, first in first out. Those before `head` were taken, or are room; they go once they are
/// more than the half, so that taking costs what is taken, and putting costs what is put.
#[derive(Drop)]
pub(crate) struct Queue<T> {
    items: Vec<T>,
    head: usize,
}

impl<T> Model for Queue<T> {
    ghost use Rattle.std.specs.Prelude.{List, length, drop, ◌≤◌};

    ghost Value = { List T };

    ghost view = { λ queue. drop queue.head queue.items.items };

    ghost invariant = { λ queue. queue.head ≤ length queue.items.items };
}

impl<T: Copy> Queue<T> {
    /// No items. It takes no memory yet.
    pub(crate) fn new(alloc: Global) -> Queue<T>
        ensures { result ≡ [] }
    {
        Queue {
            items: Vec::new(alloc),
            head: 0,
        }
    }

    /// The number of items.
    pub(crate) fn len(&self) -> usize
        ensures number { result ≡ length self.now }
        ensures small { result < 2 ^ 63 }
    {
        self.items.len() - self.head
    }

    /// Whether there are no items.
    pub(crate) fn is_empty(&self) -> bool
        ensures { IsTrue result ↔ (self.now ≡ []) }
    {
        self.len() == 0
    }

    /// The items, in order.
    pub(crate) fn as_slice(&self) -> &[T]
        ensures { result.now ≡ self.now }
    {
        &self.items.as_slice()[self.head..]
    }

    /// Takes all items away.
    pub(crate) fn clear(&mut self)
        ensures { self.new ≡ [] }
    {
        self.items.clear();
        self.head = 0;
    }

    /// Takes items away from the end, until so many are left.
    pub(crate) fn truncate(&mut self, left: usize)
        requires { left ≤ length self.old }
        ensures { self.new ≡ take left self.old }
    {
        self.items.truncate(self.head + left);
    }

    /// Puts items at the end. If memory is not given, nothing changes.
    pub(crate) fn put(&mut self, more: &[T]) -> Result<(), NoMemory>
        ensures put { OnOk result (self.new ≡ self.old ++ more.now) }
        ensures unchanged { OnErr result (self.new ≡ self.old) }
    {
        match self.items.extend_from_slice(more) {
            Ok(()) => Ok(()),
            Err(_) => Err(NoMemory),
        }
    }

    /// Takes items away from the front.
    pub(crate) fn skip(&mut self, count: usize)
        requires { count ≤ length self.old }
        ensures { self.new ≡ drop count self.old }
    {
        self.head += count;
        if self.head > self.items.len() / 2 {
            compact(&mut self.items, &mut self.head);
        }
    }
}

impl Queue<Char> {
    /// The character at a place becomes another.
    pub(crate) fn set(&mut self, place: usize, ch: Char)
        requires { place < length self.old }
        ensures { self.new ≡ slice_set self.old place ch }
    {
        self.items[self.head + place] = ch;
    }

    /// Puts characters at the front. If memory is not given, nothing changes.
    pub(crate) fn put_front(&mut self, more: &[Char]) -> Result<(), NoMemory>
        ensures put { OnOk result (self.new ≡ more.now ++ self.old) }
        ensures unchanged { OnErr result (self.new ≡ self.old) }
    {
        make_room(&mut self.items, &mut self.head, more.len())?;
        write_before(&mut self.items, &mut self.head, more);
        Ok(())
    }

    /// Characters from a place on go away, up to another place. The shorter side is moved.
    pub(crate) fn remove(&mut self, place: usize, end: usize)
        requires order { place ≤ end }
        requires end { end ≤ length self.old }
        ensures { self.new ≡ take place self.old ++ drop end self.old }
    {
        if place < self.len() - end {
            close_up(&mut self.items, self.head, place, end);
            self.skip(end - place);
        } else {
            self.items.drain(self.head + place..self.head + end);
        }
    }

    /// A character comes in before the one at a place, or at the end. The shorter side is moved. If
    /// memory is not given, nothing changes.
    pub(crate) fn insert(&mut self, place: usize, ch: Char) -> Result<(), NoMemory>
        requires { place ≤ length self.old }
        ensures put { OnOk result (self.new ≡ take place self.old ++ ch ∷ drop place self.old) }
        ensures unchanged { OnErr result (self.new ≡ self.old) }
    {
        if place < self.len() / 2 {
            make_room(&mut self.items, &mut self.head, 1)?;
            insert_near_front(&mut self.items, &mut self.head, place, ch);
            return Ok(());
        }
        insert_near_end(&mut self.items, self.head + place, ch)
    }
}

/// The items that were taken go, which are at least as many as the others.
fn compact<T: Copy>(items: &mut Vec<T>, head: &mut usize)
    requires within { head.old ≤ length items.old.items }
    requires half { length items.old.items ≤ head.old + head.old }
    ensures items { items.new.items ≡ drop head.old items.old.items }
    ensures head { head.new ≡ 0 }
{
    let left = items.len() - *head;
    let (front, back) = items.as_mut_slice().split_at_mut(*head);
    front[..left].copy_from_slice(back);
    items.truncate(left);
    *head = 0;
}

/// Characters before a place move up, over those from it on, up to another place.
fn close_up(chars: &mut Vec<Char>, head: usize, place: usize, end: usize)
    requires order { place ≤ end }
    requires end { head + end ≤ length chars.old.items }
    ensures moved { drop (head + (end - place)) chars.new.items
        ≡ take place (drop head chars.old.items) ++ drop end (drop head chars.old.items) }
    ensures length { length chars.new.items ≡ length chars.old.items }
{
    move_up(chars.slice_mut(head..head + end), end - place);
}

/// A character comes in before the one at a place, and those before it move down.
fn insert_near_front(chars: &mut Vec<Char>, head: &mut usize, place: usize, ch: Char)
    requires room { 0 < head.old }
    requires place { head.old + place ≤ length chars.old.items }
    ensures chars { drop head.new chars.new.items ≡ take place (drop head.old chars.old.items)
        ++ ch ∷ drop place (drop head.old chars.old.items) }
    ensures head { head.new ≤ length chars.new.items }
{
    *head -= 1;
    chars[*head] = ch;
    chars.slice_mut(*head..*head + place + 1).rotate_left(1);
}

/// A character comes in before the one at a place, and those from it on move up. If memory is not
/// given, nothing changes.
fn insert_near_end(chars: &mut Vec<Char>, place: usize, ch: Char) -> Result<(), NoMemory>
    requires { place ≤ length chars.old.items }
    ensures put { OnOk result (chars.new.items
        ≡ take place chars.old.items ++ ch ∷ drop place chars.old.items) }
    ensures unchanged { OnErr result (chars.new.items ≡ chars.old.items) }
{
    let Ok(()) = chars.push(ch) else {
        return Err(NoMemory);
    };
    move_up(chars.slice_mut(place..), 1);
    chars[place] = ch;
    Ok(())
}

/// Characters move up by so many places, and the last ones go. A block moves at a time, from the
/// last on: the moves of std take one character after another where they move up.
fn move_up(chars: &mut [Char], by: usize)
    requires { by ≤ length chars.old }
    ensures moved { drop by chars.new ≡ take (length chars.old - by) chars.old }
    ensures length { length chars.new ≡ length chars.old }
{
    let mut left = chars.len() - by;
    while left > 0 {
        let end = left;
        left = left.saturating_sub(BLOCK);
        move_block(chars, left, end, by);
    }
}

/// The characters of a block, from a place on up to another place, come so many places higher.
fn move_block(chars: &mut [Char], start: usize, end: usize, by: usize)
    requires order { start ≤ end }
    requires block { end ≤ start + BLOCK }
    requires within { end + by ≤ length chars.old }
    ensures { chars.new ≡ take (start + by) chars.old
        ++ (drop start (take end chars.old) ++ drop (end + by) chars.old) }
{
    let mut block = [Char::Invalid; BLOCK];
    let moved = &mut block[..end - start];
    moved.copy_from_slice(&chars[start..end]);
    chars[start + by..end + by].copy_from_slice(moved);
}

/// Writes characters into the room at the front, beside those that stand there.
fn write_before(chars: &mut Vec<Char>, head: &mut usize, more: &[Char])
    requires room { length more.now ≤ head.old }
    requires head { head.old ≤ length chars.old.items }
    ensures chars { drop head.new chars.new.items ≡ more.now ++ drop head.old chars.old.items }
    ensures head { head.new ≤ length chars.new.items }
{
    let end = *head;
    *head -= more.len();
    chars.slice_mut(*head..end).copy_from_slice(more);
}

/// Makes room at the front for so many characters if it is not there: and for half as many as there
/// are, so that it is rarely made. If memory is not given, nothing changes.
fn make_room(chars: &mut Vec<Char>, head: &mut usize, count: usize) -> Result<(), NoMemory>
    requires { head.old ≤ length chars.old.items }
    ensures chars { drop head.new chars.new.items ≡ drop head.old chars.old.items }
    ensures head { head.new ≤ length chars.new.items }
    ensures room { OnOk result (count ≤ head.new) }
{
    if count <= *head {
        return Ok(());
    }
    let len = chars.len();
    let Some(size) = (len + len / 2).checked_add(count) else {
        return Err(NoMemory);
    };
    let Ok(()) = chars.resize(size, Char::Invalid) else {
        return Err(NoMemory);
    };
    move_up(chars.as_mut_slice(), size - len);
    *head += size - len;
    Ok(())
}
