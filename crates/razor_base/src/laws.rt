//! Laws of the turns in which inputs are read. The functions do nothing.
ghost use Rattle.razor_base.specs.Turns.{CallGives, FailureIsLast, LastTurn, OneMoreTurn, OthersAreUnread, TurnsJoin, WholeTurnGives, WholeTurnsAreTurns, WholeTurnsDoNotFail, WholeTurnsJoin};

/// A whole turn of each of some names is turns of these names.
pub fn whole_turns_are_turns()
    ensures { WholeTurnsAreTurns }
{}

/// Turns join behind whole ones.
pub fn turns_join()
    ensures { TurnsJoin }
{}

/// Whole turns join.
pub fn whole_turns_join()
    ensures { WholeTurnsJoin }
{}

/// One whole turn more may stand behind whole ones.
pub fn one_turn_more()
    ensures { OneMoreTurn }
{}

/// A turn that broke off may stand behind whole ones, and none of the later names was begun.
pub fn last_turn()
    ensures { LastTurn }
{}

/// No read of a whole turn failed.
pub fn whole_turns_do_not_fail()
    ensures { WholeTurnsDoNotFail }
{}

/// A failure is the last read.
pub fn failure_is_last()
    ensures { FailureIsLast }
{}

/// What a whole turn gave are its pieces, joined, and it met the end.
pub fn whole_turn_gives()
    ensures { WholeTurnGives }
{}

/// A name that has no turn was not read.
pub fn others_unread()
    ensures { OthersAreUnread }
{}

/// What a call was given of a name is what stands in the reads that it added.
pub fn call_gives()
    ensures { CallGives }
{}
