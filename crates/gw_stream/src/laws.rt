//! Laws of bodies that are relayed. Each is a function whose `ensures` is the law.

ghost use Rattle.gw_stream.specs.RelayLaws.{ComesOfLink, DrawnIsBody, FrontOfText, PullsFollow, ReadsAreTaken, SaysToLink};
ghost use Rattle.gw_stream.specs.ReplyLaws.{RelayFollows, WholeFollows};

use gw_body::bodies_follow_places;

/// The bytes that were ahead, and then those that were read of a link, are those that a body's reader took, and then those
/// that are ahead now.
pub fn reads_are_taken()
    ensures { ReadsAreTaken }
{}

/// What came of a whole body from its beginning on is a body of its framing with the data that was given, and then what
/// is ahead (RFC 9112, section 6.3).
pub fn drawn_is_body()
    ensures { DrawnIsBody }
{
    bodies_follow_places();
}

/// Pulls one behind the other draw the data of both, up to where the last one stopped.
pub fn pulls_follow()
    ensures { PullsFollow }
{}

/// What a relay wrote of a body that stopped in its middle begins the text of all data that begins with what came.
pub fn front_of_text()
    ensures { FrontOfText }
{}

/// What a relay logs on either side are that side's link's own acts.
pub fn sides_are_own()
    ensures comes { ComesOfLink }
    ensures says { SaysToLink }
{}

/// What is relayed behind the first piece of a body and a head, or written where the body was whole before, is a relay of
/// the body from its beginning, with the head before its text.
pub fn relays_follow()
    ensures piece { RelayFollows }
    ensures whole { WholeFollows }
{}
