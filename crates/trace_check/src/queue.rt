//! The characters of a wire, first in first out.

ghost use Rattle.std.specs.Prelude.{◌≡◌, ◌++◌, [], List, false, length, take, IfOk, IsTrue};
ghost use Rattle.link_wires.specs.Wires.{fits};
ghost use Rattle.fabric_trace.specs.Fold.{changed};
ghost use Rattle.rio_chars.specs.declared.chars.Char.{Char as AChar};

use arrayvec::ArrayVec;
use link_wires::{Chars, Edited};
use rio_chars::{Char, Edit};
use std::alloc::{AllocError, Global};
use std::marker::Model;

/// Characters, first in first out.
#[derive(Drop)]
pub(crate) struct CharQueue {
    chars: Chars,
}

impl Model for CharQueue {
    ghost use Rattle.std.specs.Prelude.{List};
    ghost use Rattle.rio_chars.specs.declared.chars.Char.{Char};

    ghost Value = { List Char };

    ghost view = { λ queue. queue.chars };
}

impl CharQueue {
    /// No characters. It takes no memory yet.
    pub(crate) fn new(alloc: Global) -> CharQueue
        ensures { result ≡ [] }
    {
        CharQueue {
            chars: Chars::new(alloc),
        }
    }

    /// Whether there are no characters.
    pub(crate) fn is_empty(&self) -> bool
        ensures empty { IsTrue result → self.now ≡ [] }
        ensures some { result ≡ false → self.now ≡ [] → ⊥ }
    {
        self.chars.is_empty()
    }

    /// How many characters there are.
    pub(crate) fn len(&self) -> usize
        ensures { result ≡ length self.now }
    {
        self.chars.len()
    }

    /// The first characters, at most eight.
    pub(crate) fn front(&self) -> ArrayVec<Char, 8>
        ensures { result.items ≡ take 8 self.now }
    {
        let chars = &self.chars;
        let mut front = ArrayVec::new();
        for i in 0..chars.len().min(8) {
            front.push(chars.at(i));
        }
        front
    }

    /// Puts characters at the end.
    pub(crate) fn put(&mut self, more: &[Char]) -> Result<(), AllocError>
        ensures { IfOk result (λ _. self.new ≡ self.old ++ more.now) }
    {
        match self.chars.put(more) {
            Ok(()) => Ok(()),
            Err(_) => Err(AllocError),
        }
    }

    /// Takes characters away that stand at the front, and tells whether they do.
    pub(crate) fn take_front(&mut self, front: &[Char]) -> bool
        ensures taken { IsTrue result → self.old ≡ front.now ++ self.new }
        ensures other { result ≡ false
            → (behind : List AChar) → self.old ≡ front.now ++ behind → ⊥ }
    {
        if !starts_with(&self.chars, front) {
            return false;
        }
        self.chars.skip(front.len());
        true
    }

    /// Changes the characters, and tells whether the change lies within them. If it does not,
    /// nothing changes.
    pub(crate) fn edit(&mut self, edit: &Edit) -> Result<bool, AllocError>
        ensures fits { IfOk result (λ made. made ≡ fits edit.now self.old) }
        ensures changed { IfOk result (λ _. self.new ≡ changed edit.now self.old) }
    {
        match self.chars.edit(edit) {
            Ok(Edited::Done) => Ok(true),
            Ok(Edited::Short) => Ok(false),
            Err(_) => Err(AllocError),
        }
    }
}

/// Whether characters stand at the front of others.
fn starts_with(chars: &Chars, front: &[Char]) -> bool
    ensures stands { IsTrue result → (behind : List AChar) × (chars.now ≡ front.now ++ behind) }
    ensures other { result ≡ false
        → (behind : List AChar) → chars.now ≡ front.now ++ behind → ⊥ }
{
    if front.len() > chars.len() {
        return false;
    }
    for (i, c) in front.iter().enumerate() {
        if chars.at(i) != *c {
            return false;
        }
    }
    true
}
