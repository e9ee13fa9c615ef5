//! Packets that are acknowledged leave the store.
ghost use Rattle.std.specs.Prelude.{◌≡◌, ◌+◌, ◌<◌, ◌≤◌, [], ◌∷◌, ◌++◌, length, All};
ghost use Rattle.arrayvec.specs.ArrayVec.{array_vec_len};
ghost use Rattle.link_buffers.specs.Priorities.{packets_of, lists_without};

use arrayvec::ArrayVec;
use link_buffers::OutStore;
use rio_packets::Packet;

/// Takes the first packet of each priority in turn out of the store and appends them to `freed`.
pub(crate) fn free_all(prios: &[u8], store: &mut OutStore, freed: &mut ArrayVec<Packet, 31>)
    requires few { All (λ prio. prio < 4) prios.now }
    requires room { array_vec_len freed.old + length prios.now ≤ 31 }
    ensures store { store.new ≡ lists_without prios.now store.old }
    ensures freed { freed.new.items ≡ freed.old.items ++ packets_of prios.now store.old }
{
    for prio in prios {
        free_one(*prio, store, freed);
    }
}

/// Takes the first packet of a priority out of the store, if there is one, and appends it to
/// `freed`.
fn free_one(prio: u8, store: &mut OutStore, freed: &mut ArrayVec<Packet, 31>)
    requires few { prio < 4 }
    requires room { array_vec_len freed.old < 31 }
    ensures store { store.new ≡ lists_without (prio ∷ []) store.old }
    ensures freed { freed.new.items ≡ freed.old.items ++ packets_of (prio ∷ []) store.old }
    ensures len { array_vec_len freed.new ≤ array_vec_len freed.old + 1 }
{
    if let Some(packet) = store.pop(prio) {
        freed.push(packet);
    }
}
