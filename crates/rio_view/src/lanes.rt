//! The lifelines of a ladder, with what stands on their wires.

use crate::cells::Cells;
use crate::picture::Picture;
use rio_chars::Edit;
use std::alloc::{AllocError, Global};

/// The lifeline of a port, and what stands on its wire.
#[derive(Drop)]
pub(crate) struct Lane {
    pub(crate) wire: Cells,
    /// The row of the packet that is being sent.
    pub(crate) open: Option<usize>,
    /// Whether it asked which packet is expected, and has no answer yet.
    pub(crate) asks: bool,
    /// Where the lifeline is, and whether it is the left one of its link.
    pub(crate) life: Option<(u32, bool)>,
}

impl Lane {
    /// Nothing stands on the wire.
    pub(crate) fn new(alloc: Global) -> Lane {
        Lane {
            wire: Cells::new(alloc),
            open: None,
            asks: false,
            life: None,
        }
    }

    /// Makes an edit of the wire.
    pub(crate) fn edit(&mut self, edit: Edit, picture: &mut Picture) -> Result<(), AllocError> {
        match edit {
            Edit::Alter { place, .. } => {
                let row = self.wire.alter(place as usize);
                picture.change(row);
            }
            Edit::Insert { place, .. } => {
                let row = self.wire.insert(place as usize)?;
                picture.change(row);
            }
            Edit::Erase { place, count } => {
                for _ in 0..count {
                    let row = self.wire.erase(place as usize);
                    picture.lose(row);
                }
            }
        }
        Ok(())
    }
}
