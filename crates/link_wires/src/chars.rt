//! `Chars`: the characters on a wire.
ghost use Rattle.std.specs.Prelude.{◌≡◌, ◌≤◌, ◌<◌, ◌+◌, ◌++◌, ◌∷◌, ◌↔◌, [], length, take, drop, slice_set, slice_index_or, IsTrue, OnOk, OnErr};

use crate::queue::Queue;
use rio_chars::{Char, NoMemory};
use std::alloc::Global;
use std::marker::Model;

/// Characters, first in first out, in two parts that meet at the *cut*. An edit brings the cut to
/// its place, unless an end is nearer. So an edit moves what stands between it and the nearest of
/// the last edit and both ends.
#[derive(Drop)]
pub struct Chars {
    front: Queue<Char>,
    back: Queue<Char>,
}

impl Model for Chars {
    ghost use Rattle.std.specs.Prelude.{List, ◌++◌};
    ghost use Rattle.rio_chars.specs.declared.chars.Char.{Char};

    ghost Value = { List Char };

    ghost view = { λ chars. chars.front ++ chars.back };
}

impl Chars {
    /// No characters. They take no memory yet.
    pub fn new(alloc: Global) -> Chars
        ensures { result ≡ [] }
    {
        Chars {
            front: Queue::new(alloc),
            back: Queue::new(alloc),
        }
    }

    /// The number of characters.
    pub fn len(&self) -> usize
        ensures { result ≡ length self.now }
    {
        self.front.len() + self.back.len()
    }

    /// Whether there are no characters.
    pub fn is_empty(&self) -> bool
        ensures { IsTrue result ↔ (self.now ≡ []) }
    {
        self.len() == 0
    }

    /// The character at a place, counted from 0.
    pub fn at(&self, place: usize) -> Char
        requires { place < length self.now }
        ensures { result ≡ slice_index_or self.now place result }
    {
        let cut = self.front.len();
        if place < cut {
            return self.front.as_slice()[place];
        }
        self.back.as_slice()[place - cut]
    }

    /// Puts characters at the end. If memory is not given, nothing changes.
    pub fn put(&mut self, more: &[Char]) -> Result<(), NoMemory>
        ensures put { OnOk result (self.new ≡ self.old ++ more.now) }
        ensures unchanged { OnErr result (self.new ≡ self.old) }
    {
        if self.back.is_empty() {
            return self.front.put(more);
        }
        self.back.put(more)
    }

    /// Takes characters away from the front.
    pub fn skip(&mut self, count: usize)
        requires { count ≤ length self.old }
        ensures { self.new ≡ drop count self.old }
    {
        let front = self.front.len();
        if count <= front {
            self.front.skip(count);
        } else {
            self.front.clear();
            self.back.skip(count - front);
        }
    }

    /// Takes characters away from the front, and puts them in place of what was got before.
    pub(crate) fn take_front(&mut self, count: usize, got: &mut Vec<Char>) -> Result<(), NoMemory>
        requires { count ≤ length self.old }
        ensures got { OnOk result (got.new.items ≡ take count self.old) }
        ensures left { OnOk result (self.new ≡ drop count self.old) }
    {
        got.clear();
        let front = self.front.as_slice();
        let before = count.min(front.len());
        got.extend_from_slice(&front[..before])?;
        got.extend_from_slice(&self.back.as_slice()[..count - before])?;
        self.skip(count);
        Ok(())
    }

    /// The character at a place becomes another.
    pub(crate) fn set(&mut self, place: usize, ch: Char)
        requires { place < length self.old }
        ensures { self.new ≡ slice_set self.old place ch }
    {
        let cut = self.front.len();
        if place < cut {
            self.front.set(place, ch);
        } else {
            self.back.set(place - cut, ch);
        }
    }

    /// Characters from a place on go away, up to another place. If memory is not given, nothing
    /// changes.
    pub(crate) fn remove(&mut self, place: usize, end: usize) -> Result<(), NoMemory>
        requires order { place ≤ end }
        requires end { end ≤ length self.old }
        ensures removed { OnOk result (self.new ≡ take place self.old ++ drop end self.old) }
        ensures unchanged { OnErr result (self.new ≡ self.old) }
    {
        let cut = self.front.len();
        if end < cut && place < cut - end {
            self.front.remove(place, end);
            return Ok(());
        }
        if cut < place && self.len() - end < place - cut {
            self.back.remove(place - cut, end - cut);
            return Ok(());
        }
        remove_at_cut(&mut self.front, &mut self.back, place, end)
    }

    /// A character comes in before the one at a place, or at the end. If memory is not given,
    /// nothing changes.
    pub(crate) fn insert(&mut self, place: usize, ch: Char) -> Result<(), NoMemory>
        requires { place ≤ length self.old }
        ensures put { OnOk result (self.new ≡ take place self.old ++ ch ∷ drop place self.old) }
        ensures unchanged { OnErr result (self.new ≡ self.old) }
    {
        let cut = self.front.len();
        if place < cut && place < cut - place {
            return self.front.insert(place, ch);
        }
        if cut < place && self.len() - place < place - cut {
            return self.back.insert(place - cut, ch);
        }
        insert_at_cut(&mut self.front, &mut self.back, place, ch)
    }
}

/// Characters go away at the cut, which comes between them.
fn remove_at_cut(
    front: &mut Queue<Char>,
    back: &mut Queue<Char>,
    place: usize,
    end: usize,
) -> Result<(), NoMemory>
    requires order { place ≤ end }
    requires end { end ≤ length (front.old ++ back.old) }
    ensures removed { OnOk result (front.new ++ back.new
        ≡ take place (front.old ++ back.old) ++ drop end (front.old ++ back.old)) }
    ensures unchanged { OnErr result (front.new ++ back.new ≡ front.old ++ back.old) }
{
    let cut = front.len().max(place).min(end);
    move_cut(front, back, cut)?;
    front.truncate(place);
    back.skip(end - cut);
    Ok(())
}

/// A character comes in at the cut, which comes to its place.
fn insert_at_cut(
    front: &mut Queue<Char>,
    back: &mut Queue<Char>,
    place: usize,
    ch: Char,
) -> Result<(), NoMemory>
    requires { place ≤ length (front.old ++ back.old) }
    ensures put { OnOk result (front.new ++ back.new
        ≡ take place (front.old ++ back.old) ++ ch ∷ drop place (front.old ++ back.old)) }
    ensures unchanged { OnErr result (front.new ++ back.new ≡ front.old ++ back.old) }
{
    move_cut(front, back, place)?;
    front.put(&[ch])
}

/// Brings the cut to a place. If memory is not given, it stays where it is.
fn move_cut(front: &mut Queue<Char>, back: &mut Queue<Char>, place: usize) -> Result<(), NoMemory>
    requires { place ≤ length (front.old ++ back.old) }
    ensures front { OnOk result (front.new ≡ take place (front.old ++ back.old)) }
    ensures back { OnOk result (back.new ≡ drop place (front.old ++ back.old)) }
    ensures unchanged { OnErr result ((front.new ≡ front.old) × (back.new ≡ back.old)) }
{
    let cut = front.len();
    if place < cut {
        back.put_front(&front.as_slice()[place..])?;
        front.truncate(place);
    } else {
        front.put(&back.as_slice()[..place - cut])?;
        back.skip(place - cut);
    }
    Ok(())
}
