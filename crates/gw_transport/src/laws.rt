//! Laws of exchanges. Each is a function whose `ensures` is the law.

ghost use Rattle.gw_transport.specs.Closing.{ClosesAddUp, EndsCloseWhatLeaves, LooksCloseWhatLeaves, TripsCloseWhatLeaves, UploadTripsCloseWhatLeaves};
ghost use Rattle.gw_transport.specs.ExchangeLaws.{ExchangesAreWhole, RepliesAreRead, RequestsAreWritten, UploadsAreApart};

use gw_stream::sides_are_own;
use gw_wire::{Link, other_links_differ, second_sides_are_found, sides_are_found};

/// What a backend's link took of a request with a kept body is a front of its text, and all of it where anything was read
/// of the link. What was read where a reply began is its head, behind at most five informational ones, and what is ahead.
pub fn exchanges_are_text()
    ensures requests { RequestsAreWritten }
    ensures replies { RepliesAreRead }
{}

/// A trip, what came of its reply's body, and the lease's end are one stretch of work.
pub fn exchanges_are_whole<C: Link>()
    ensures { ExchangesAreWhole C.link }
{}

/// Where a client's link and a backend's have two numbers, an upload wrote to the client what tells it to go on and nothing
/// else, and to the backend a front of the request's text. Nothing was read of the backend.
pub fn uploads_are_apart()
    ensures { UploadsAreApart }
{
    sides_are_own();
    sides_are_found();
    second_sides_are_found();
    other_links_differ();
}

/// Each connection that the entries of a trip, or of a lease's end, take out of the pool is closed in that stretch of work
/// once, in their order, and no other link is. This adds up where stretches follow one another.
pub fn connections_are_closed_once<C: Link>()
    ensures trips { TripsCloseWhatLeaves C.link }
    ensures uploads { UploadTripsCloseWhatLeaves C.link }
    ensures looks { LooksCloseWhatLeaves }
    ensures ends { EndsCloseWhatLeaves }
    ensures sums { ClosesAddUp }
{}
