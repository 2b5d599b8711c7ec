//! The memory of a domain, taken before it is read.
ghost use Rattle.std.specs.Prelude.{◌≡◌, ◌≤◌, [], IfOk, IfErr, vec_len, vec_capacity};
ghost use Rattle.domain.specs.Faults.{room_number};

use crate::fault::RoomFault;
use crate::limits::{MOST_ACTIONS, MOST_GOALS};
use std::alloc::Global;

/// Room for 120 actions and 32 goals, the most that a domain has, and nothing in it.
#[derive(Drop)]
pub struct Room<S, G> {
    pub actions: Vec<S>,
    pub goals: Vec<G>,
    ghost empty: { (vec_len actions ≡ 0) × (vec_len goals ≡ 0) },
    ghost wide: { (120 ≤ vec_capacity actions) × (32 ≤ vec_capacity goals) },
}

impl<S: Drop, G: Drop> Room<S, G> {
    /// It can fail for want of memory; reading into the room then cannot.
    pub fn take(heap: Global) -> Result<Room<S, G>, RoomFault>
        ensures empty { IfOk result (λ room. (room.actions.items ≡ []) × (room.goals.items ≡ [])) }
        ensures wide { IfOk result (λ room. (120 ≤ vec_capacity room.actions) × (32 ≤ vec_capacity room.goals)) }
        ensures memory { IfErr result (λ fault. room_number fault ≡ 32) }
    {
        Ok(Room {
            actions: Vec::with_capacity(heap, usize::from(MOST_ACTIONS))?,
            goals: Vec::with_capacity(heap, usize::from(MOST_GOALS))?,
        })
    }
}

/// Why nothing was put into a room, and the room, empty as it was.
#[derive(Drop)]
pub struct Unfilled<E, S, G> {
    pub fault: E,
    pub room: Room<S, G>,
}
