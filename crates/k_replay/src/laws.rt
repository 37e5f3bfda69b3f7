//! What the calls of workers come to, for those who rest on it: each function's contract is a law, and its body does nothing.
ghost use Rattle.k_replay.specs.Orders.{AnyOrderGivesTheSerialRun};
ghost use Rattle.k_replay.specs.Rounds.{RoundsGiveTheSerialRun};

/// *Any order gives the serial run*.
pub fn any_order()
    ensures { AnyOrderGivesTheSerialRun }
{}

/// *Rounds* is such an order: each of its turns is a call.
pub fn rounds()
    ensures { RoundsGiveTheSerialRun }
{}
