//! Laws of bodies. Each is a function with an empty body, whose `ensures` is the law.
ghost use Rattle.gw_body.specs.Laws.{BeginsText, BeginsWritten, BodiesFromFirst, DoneIsWhole, EndsWritten, FaultsFromFirst, GoesOnText, GoesOnWritten, NoFaultInBody, OneBody, PiecesMakeText, TakenInTurn, TakenIsPart, TextIsRead, UndecidedIsNeither, WrittenIsRead};

/// What is said of bodies and of faults from the reader's first place is what is said of whole bodies (RFC 9112,
/// section 6.3).
pub fn bodies_follow_places()
    ensures bodies { BodiesFromFirst }
    ensures faults { FaultsFromFirst }
{}

/// Bytes are a body and what follows it in one way at most, and then they have no fault.
pub fn bodies_have_one_reading()
    ensures one { OneBody }
    ensures no_fault { NoFaultInBody }
{}

/// Nothing is decided by bytes exactly where there is no data among them, and neither the body's end nor a fault.
pub fn undecided_is_neither()
    ensures { UndecidedIsNeither }
{}

/// A body is done exactly where all that follows is behind it.
pub fn done_is_whole()
    ensures { DoneIsWhole }
{}

/// What calls of the reader say of bytes, one after another, is said of all of them; and where neither the body's end
/// nor a fault has come, those are a part of the body with the data that was given.
pub fn taken_in_turn()
    ensures turn { TakenInTurn }
    ensures part { TakenIsPart }
{}

/// What the writer writes is the text of its data, and is read as that data, whatever follows: in chunks of up to 2^62
/// bytes of data, and up to the link's end of as many, where nothing follows.
pub fn written_is_read()
    ensures text { PiecesMakeText }
    ensures read { WrittenIsRead }
    ensures alone { TextIsRead }
{}

/// The same piece by piece: what was written so far and what may follow make the text of all data, and it begins the
/// text of all data that begins so.
pub fn written_piece_by_piece()
    ensures begins { BeginsWritten }
    ensures goes_on { GoesOnWritten }
    ensures ends { EndsWritten }
    ensures begins_text { BeginsText }
    ensures goes_on_text { GoesOnText }
{}
