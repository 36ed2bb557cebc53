//! The tests that a call makes before it changes a run.
ghost use Rattle.std.specs.Prelude.{◌≡◌, map, length};
ghost use Rattle.runs.specs.Calls.{Says, lengths_outcome, room_outcome, elements_outcome, slices_outcome};

use crate::element::piece_at;
use condensers::condenser::Condenser;
use numbers::kind::Kind;
use numbers::refusal::{Reason, Refusal, Side};
use std::cmp::Ordering;

/// Refuses two lengths that differ: the shorter one, and its side.
fn check_lengths(first: usize, second: usize) -> Result<(), Refusal>
    ensures answer { Says (lengths_outcome first second) result }
{
    match first.cmp(&second) {
        Ordering::Less => Err(Refusal {
            reason: Reason::LengthsDiffer,
            place: first as u64,
            side: Side::First,
        }),
        Ordering::Greater => Err(Refusal {
            reason: Reason::LengthsDiffer,
            place: second as u64,
            side: Side::Second,
        }),
        Ordering::Equal => Ok(()),
    }
}

/// Refuses more products than fit: how many still do.
pub(crate) fn check_room<C: Condenser>(condenser: &C, products: u64) -> Result<(), Refusal>
    ensures answer { Says (room_outcome C.Condenser.capacity (C.Condenser.count condenser.now) products) result }
{
    let room = condenser.put_limit().saturating_sub(condenser.put_count());
    if room < products {
        return Err(Refusal::at(Reason::Full, room));
    }
    Ok(())
}

/// Refuses the first element that has no factor.
fn check_elements<K: Kind, L: Kind>(
    firsts: &[K::Element],
    seconds: &[L::Element],
) -> Result<(), Refusal>
    requires { length firsts.now ≡ length seconds.now }
    ensures answer { Says (elements_outcome 0 (map K.Kind.value firsts.now) (map L.Kind.value seconds.now)) result }
{
    // an index loop: the elements are tested in the order of the index, the first slice before the second
    for i in 0..firsts.len() {
        piece_at::<K, L>(firsts[i], seconds[i], i as u64)?;
    }
    Ok(())
}

/// Every test of a call on two slices, in order: the lengths, the room, the elements.
pub(crate) fn check_slices<C: Condenser, K: Kind, L: Kind>(
    condenser: &C,
    firsts: &[K::Element],
    seconds: &[L::Element],
) -> Result<(), Refusal>
    ensures answer { Says (slices_outcome C.Condenser.capacity (C.Condenser.count condenser.now) (map K.Kind.value firsts.now) (map L.Kind.value seconds.now)) result }
{
    check_lengths(firsts.len(), seconds.len())?;
    check_room(condenser, firsts.len() as u64)?;
    check_elements::<K, L>(firsts, seconds)
}
