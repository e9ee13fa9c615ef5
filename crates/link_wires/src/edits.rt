//! Changes of the characters of a wire.
ghost use Rattle.std.specs.Prelude.{◌≡◌, IfOk, OnOk, OnErr, if◌then◌else◌};
ghost use Rattle.link_wires.specs.Wires.{fits, edited, after_edit, edit_answered};

use crate::chars::Chars;
use crate::wire::Wire;
use rio_chars::{Char, Edit, NoMemory};

/// What came of an edit, or of a delivery.
#[derive(Clone, Copy, Debug, PartialEq, Eq)]
pub enum Edited {
    /// It was done.
    Done,
    /// The wire has too few characters: nothing was done.
    Short,
}

impl Wire {
    /// Changes the characters, and leaves what was sent as it is. Short exactly where the place of
    /// an alteration is not below the length, an erasure goes past the end, or the place of an
    /// insertion lies past the end. Then, and where memory is not given, nothing changes.
    pub fn edit(&mut self, edit: &Edit) -> Result<Edited, NoMemory>
        ensures short { IfOk result (λ answer. answer
            ≡ edit_answered (fits edit.now self.old.chars)) }
        ensures changed { OnOk result (self.new ≡ after_edit edit.now self.old) }
        ensures unchanged { OnErr result (self.new ≡ self.old) }
    {
        self.chars.edit(edit)
    }
}

impl Chars {
    /// Changes the characters. Short exactly where the place of an alteration is not below the
    /// length, an erasure goes past the end, or the place of an insertion lies past the end. Then,
    /// and where memory is not given, nothing changes.
    pub fn edit(&mut self, edit: &Edit) -> Result<Edited, NoMemory>
        ensures short { IfOk result (λ answer. answer ≡ edit_answered (fits edit.now self.old)) }
        ensures changed { OnOk result (self.new
            ≡ (if fits edit.now self.old then edited edit.now self.old else self.old)) }
        ensures unchanged { OnErr result (self.new ≡ self.old) }
    {
        match edit {
            Edit::Alter { place, ch } => Ok(self.alter(*place, *ch)),
            Edit::Erase { place, count } => self.erase(*place, *count),
            Edit::Insert { place, ch } => self.put_before(*place, *ch),
        }
    }

    /// The character at a place becomes another.
    fn alter(&mut self, place: u32, ch: Char) -> Edited
        ensures short { result ≡ edit_answered (fits (Edit.Alter place ch) self.old) }
        ensures changed { self.new ≡ (if fits (Edit.Alter place ch) self.old
            then edited (Edit.Alter place ch) self.old else self.old) }
    {
        let place = place as usize;
        if place >= self.len() {
            return Edited::Short;
        }
        self.set(place, ch);
        Edited::Done
    }

    /// Characters from a place on are lost.
    fn erase(&mut self, place: u32, count: u32) -> Result<Edited, NoMemory>
        ensures short { IfOk result (λ answer. answer
            ≡ edit_answered (fits (Edit.Erase place count) self.old)) }
        ensures changed { OnOk result (self.new ≡ (if fits (Edit.Erase place count) self.old
            then edited (Edit.Erase place count) self.old else self.old)) }
        ensures unchanged { OnErr result (self.new ≡ self.old) }
    {
        let place = place as usize;
        let end = place + count as usize;
        if end > self.len() {
            return Ok(Edited::Short);
        }
        self.remove(place, end)?;
        Ok(Edited::Done)
    }

    /// A character comes in before the one at a place.
    fn put_before(&mut self, place: u32, ch: Char) -> Result<Edited, NoMemory>
        ensures short { IfOk result (λ answer. answer
            ≡ edit_answered (fits (Edit.Insert place ch) self.old)) }
        ensures changed { OnOk result (self.new ≡ (if fits (Edit.Insert place ch) self.old
            then edited (Edit.Insert place ch) self.old else self.old)) }
        ensures unchanged { OnErr result (self.new ≡ self.old) }
    {
        let place = place as usize;
        if place > self.len() {
            return Ok(Edited::Short);
        }
        self.insert(place, ch)?;
        Ok(Edited::Done)
    }
}
