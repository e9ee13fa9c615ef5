//! Which characters of a wire belong to which arrow.

use std::alloc::{AllocError, Global};

/// A character on a wire: the row of the arrow that it belongs to, if it is drawn, and whether it
/// is not the one that was sent.
#[derive(Clone, Copy)]
pub(crate) struct Cell {
    pub(crate) row: Option<usize>,
    pub(crate) changed: bool,
}

/// The characters of a wire, first in first out.
#[derive(Drop)]
pub(crate) struct Cells {
    cells: Vec<Cell>,
}

impl Cells {
    /// No characters.
    pub(crate) fn new(alloc: Global) -> Cells {
        Cells {
            cells: Vec::new(alloc),
        }
    }

    /// So many characters of an arrow.
    pub(crate) fn put(&mut self, count: usize, row: Option<usize>) -> Result<(), AllocError> {
        for _ in 0..count {
            self.cells.push(Cell {
                row,
                changed: false,
            })?;
        }
        Ok(())
    }

    /// The character at a place becomes another, and the row of its arrow is answered.
    pub(crate) fn alter(&mut self, place: usize) -> Option<usize> {
        let cell = self.cells.get_mut(place)?;
        cell.changed = true;
        cell.row
    }

    /// A character comes in before a place, and the row of the arrow that it cuts is answered.
    pub(crate) fn insert(&mut self, place: usize) -> Result<Option<usize>, AllocError> {
        let before = self.row_at(place.wrapping_sub(1));
        let row = if self.row_at(place) == before {
            before
        } else {
            None
        };
        if place <= self.cells.len() {
            self.cells.insert(
                place,
                Cell {
                    row: None,
                    changed: true,
                },
            )?;
        }
        Ok(row)
    }

    /// The row of the arrow at a place.
    fn row_at(&self, place: usize) -> Option<usize> {
        self.cells.get(place)?.row
    }

    /// The character at a place is lost, and the row of its arrow is answered.
    pub(crate) fn erase(&mut self, place: usize) -> Option<usize> {
        if place < self.cells.len() {
            self.cells.remove(place).row
        } else {
            None
        }
    }

    /// So many characters come, and it is told whether one of them is not one that was sent.
    pub(crate) fn take(&mut self, count: usize) -> bool {
        let count = count.min(self.cells.len());
        let mut changed = false;
        for cell in self.cells.drain(..count) {
            changed = changed || cell.changed;
        }
        changed
    }
}
