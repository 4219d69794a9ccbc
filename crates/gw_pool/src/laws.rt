//! Laws of legal histories. Each is a function with an empty body, whose `ensures` is the law.
ghost use Rattle.gw_pool.specs.Keeps.{DialedWantsAreServed, DialsStay, EndedWantsStay, FailedDialsEnd, LeasesStay, MadeWantsStand, StartedWantsDial, WantsGoOn};
ghost use Rattle.gw_pool.specs.Laws.{ConnsAreTakenBack, DialedConnsAreSomewhere, EndedWantsHaveNoRow, IdleAreLimited, IdleForHostAreLimited, JournalHasRoom, NoPlaceIsFreeWhereOneWaits, NoneIsIdleWhereOneIsWanted, OffersFindWants, OffersGoToLeast, OutConnsStay, PlacesAreLimited, PlacesGoToLeast, WantsAreServedOnce};

/// The journal and all entries that its rows can still make fit into its limit, where no want was made at a full
/// journal.
pub fn journal_has_room()
    ensures { JournalHasRoom }
{}

/// No host has more connections, dials and granted wants than its limit, and no more are idle than the limits permit.
pub fn limits_hold()
    ensures places { PlacesAreLimited }
    ensures idle { IdleAreLimited }
    ensures idle_for_host { IdleForHostAreLimited }
{}

/// No connection of a host is idle while a want of it stands, and no place of it is free while one waits.
pub fn nothing_is_held_back()
    ensures idle { NoneIsIdleWhereOneIsWanted }
    ensures places { NoPlaceIsFreeWhereOneWaits }
{}

/// A want is served once at most, and one that was served, was given up or whose dial failed has no want row.
pub fn wants_are_served_once()
    ensures once { WantsAreServedOnce }
    ensures ended { EndedWantsHaveNoRow }
{}

/// A place that an entry frees goes to the least waiting want of its host, and an offered connection to the least want
/// of its host, if there is one.
pub fn least_wants_come_first()
    ensures places { PlacesGoToLeast }
    ensures offers { OffersGoToLeast }
    ensures finds { OffersFindWants }
{}

/// A connection that was put out to a want isn't put out again before it was taken back from that want, and until then
/// its row stays as it is.
pub fn connections_are_taken_back()
    ensures once { ConnsAreTakenBack }
    ensures stays { OutConnsStay }
{}

/// The connection that a dial gave is, after its entry, out to a want, idle, to be closed by the entry's reply, or
/// evicted by that entry.
pub fn dialed_connections_are_somewhere()
    ensures { DialedConnsAreSomewhere }
{}

/// A connection that is out to a caller stays so while no entry of that caller takes it back, whatever others enter. So a
/// lease can always be given back or dropped.
pub fn leases_stay()
    ensures { LeasesStay }
{}

/// Whatever others enter, a want of a caller has its row still, which may be granted where it waited, or is served, and a
/// dial of a caller goes on. A want that ended stays so.
pub fn wants_go_on()
    ensures wants { WantsGoOn }
    ensures dials { DialsStay }
    ensures ended { EndedWantsStay }
{}

/// How a want stands behind an entry of its own caller: where it was made, where its dial began, where that gave a
/// connection, and where it failed.
pub fn wants_stand()
    ensures made { MadeWantsStand }
    ensures started { StartedWantsDial }
    ensures dialed { DialedWantsAreServed }
    ensures failed { FailedDialsEnd }
{}
