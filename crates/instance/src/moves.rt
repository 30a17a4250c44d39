ghost use Rattle.std.specs.Prelude.{◌≡◌, ◌+◌, ◌<◌, ◌≤ℤ◌, pos, nat_abs, All, length, map};
ghost use Rattle.model.specs.step.Events.{moved};
ghost use Rattle.model.specs.state.World.{IsApart, IsLow, moved_places};
ghost use Rattle.instance.specs.Walk.{HasOffsets, IsOffset, IsPick, item_in, lots_of};
ghost use Rattle.broker_link.specs.Places.{place_of};
ghost use Rattle.consumer_state.specs.Views.{IsSound, consumer_of};

use crate::walk::{Pick, stored_at};
use broker_link::{Fetched, Place, Stored};
use consumer_state::{Consumer, put_position};

/// The offset behind a record's.
fn behind(stored: &Stored) -> i64
    requires { IsOffset stored.now }
    ensures low { pos 0 ≤ℤ result }
    ensures value { nat_abs result ≡ nat_abs stored.now.offset + 1 }
{
    stored.offset + 1
}

/// Moves each position behind the last of its rows that was taken.
fn advance(assignment: &mut [Place], fetched: &[Fetched], picks: &[Pick])
    requires same { length fetched.now ≡ length assignment.old }
    requires apart { IsApart (map place_of assignment.old) }
    requires picks { All (IsPick (lots_of assignment.old fetched.now)) picks.now }
    requires offsets { All HasOffsets fetched.now }
    ensures places { map place_of assignment.new ≡ moved_places (map (item_in (lots_of assignment.old fetched.now)) picks.now) (map place_of assignment.old) }
    ensures low { IsLow (map place_of assignment.old) → IsLow (map place_of assignment.new) }
{
    for pick in picks {
        let next = behind(stored_at(fetched, *pick));
        put_position(assignment, pick.lot, next);
    }
}

/// Moves the positions, the rotation place and the mark behind the rows that were taken.
pub(crate) fn move_behind(consumer: &mut Consumer, fetched: &[Fetched], picks: &[Pick])
    requires sound { IsSound consumer.old }
    requires same { length fetched.now ≡ length consumer.old.assignment.items }
    requires picks { All (IsPick (lots_of consumer.old.assignment.items fetched.now)) picks.now }
    requires offsets { All HasOffsets fetched.now }
    ensures moved { consumer_of consumer.new ≡ moved (map (item_in (lots_of consumer.old.assignment.items fetched.now)) picks.now) (consumer_of consumer.old) }
    ensures sound { IsSound consumer.new }
{
    let count = picks.len();
    if count == 0 {
        return;
    }
    advance(&mut consumer.assignment, fetched, picks);
    consumer.rotation = (picks[count - 1].lot + 1) % consumer.assignment.len();
    consumer.unsaved = true;
}
