//! The walk of a look on small cases.

ghost use Rattle.std.specs.Prelude.{true, false, ◌≡◌, [], ◌∷◌, Some, None};
ghost use Rattle.model.specs.state.World.{once_each, with_positions};
ghost use Rattle.model.specs.step.Look.{moved};
ghost use Rattle.model.specs.examples.Readings.{orders, other_orders, place_at};
ghost use Rattle.model.specs.examples.Rounds.{kafka_in, start_of_part, two_assigned, two_lots, walked_round};

/// The walk goes once round from the rotation place. It stops before the row that would pass the
/// bound, but the first row of a reply is taken; a row that doesn't read ends its partition alone.
pub fn walks_go_round()
    ensures round { walked_round 100 9 0 ≡ record { taken = kafka_in orders 0 ∷ kafka_in orders 1 ∷ kafka_in other_orders 0 ∷ []; stopped = false; unread = None } }
    ensures from_the_second { walked_round 100 9 1 ≡ record { taken = kafka_in other_orders 0 ∷ kafka_in orders 0 ∷ kafka_in orders 1 ∷ []; stopped = false; unread = None } }
    ensures bound { walked_round 10 9 0 ≡ record { taken = kafka_in orders 0 ∷ kafka_in orders 1 ∷ []; stopped = true; unread = None } }
    ensures first { walked_round 1 9 0 ≡ record { taken = kafka_in orders 0 ∷ []; stopped = true; unread = None } }
    ensures unread { walked_round 100 1 0 ≡ record { taken = kafka_in orders 0 ∷ kafka_in other_orders 0 ∷ []; stopped = false; unread = Some (kafka_in orders 1) } }
    ensures none_read { walked_round 100 0 0 ≡ record { taken = []; stopped = false; unread = Some (kafka_in orders 0) } }
    ensures stop_first { walked_round 9 1 0 ≡ record { taken = kafka_in orders 0 ∷ []; stopped = true; unread = None } }
{}

/// A consumer moves behind the rows of its reply, and the next walk begins at the partition behind
/// the last one that a row was taken from.
pub fn consumers_move_behind_their_rows()
    ensures place { (moved (kafka_in orders 0 ∷ []) two_assigned).assignment
        ≡ place_at 1 ∷ start_of_part other_orders ∷ [] }
    ensures rotation { (moved (kafka_in orders 0 ∷ []) two_assigned).rotation ≡ 1 }
    ensures once_round { (moved (kafka_in orders 0 ∷ kafka_in other_orders 0 ∷ []) two_assigned).rotation ≡ 0 }
{}

/// Of a partition that a commit repeats, the last offset is sent at the first place; of one that a
/// seek repeats, the last position counts.
pub fn repeats_count_by_their_last()
    ensures commit { once_each (place_at 1 ∷ start_of_part other_orders ∷ place_at 3 ∷ [])
        ≡ place_at 3 ∷ start_of_part other_orders ∷ [] }
    ensures seek { with_positions (place_at 1 ∷ place_at 2 ∷ []) (place_at 0 ∷ start_of_part other_orders ∷ [])
        ≡ place_at 2 ∷ start_of_part other_orders ∷ [] }
{}
