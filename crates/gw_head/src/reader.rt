//! The reader, which keeps the bytes of a head that hasn't ended.
ghost use Rattle.std.specs.Prelude.{◌≡◌, ◌≤◌, IfOk, [], vec_capacity};
ghost use Rattle.gw_head.specs.declared.error.HeadError.TheVariants.{Malformed};
ghost use Rattle.gw_head.specs.Head.{RequestHeadOf, BadRequestHead, ReplyHeadOf, BadReplyHead};
ghost use Rattle.gw_head.specs.Gather.{Gathers, IsReading};
ghost use Rattle.gw_head.specs.Stage.{reads, closed, bytes_of, Feeds};
ghost use Rattle.gw_head.specs.Take.{Takes, Concludes};

use crate::error::{HeadError, NoMemory, Refusal};
use crate::judged::Judged;
use crate::mark::{Place, scan};
use crate::reply::ReplyHead;
use crate::request::RequestHead;
use std::alloc::Global;
use std::marker::Model;

/// The most bytes that a head may have.
pub(crate) const HEAD_LIMIT: usize = 65_536;

/// What a piece brought.
#[derive(Debug, Drop)]
pub enum Step<H> {
    /// Nothing is decided yet: more bytes are wanted.
    More,
    /// The head is whole.
    Head(H),
    /// The head is refused, or the reader was closed before.
    Bad(HeadError),
    /// The head is whole and good, and there was no memory for it.
    NoMemory,
}

/// What a piece brought, and how many of its bytes belong to it.
#[derive(Debug, Drop)]
pub struct Fed<H> {
    /// The bytes at the front of the piece that were used.
    pub used: usize,
    pub step: Step<H>,
}

/// What the bytes so far and a piece say of where the head ends.
enum Gathered {
    /// It hasn't ended, and has fewer bytes than the limit.
    More,
    /// It ends behind so many bytes of the piece.
    Whole(usize),
    /// It doesn't end within the limit.
    TooLong,
}

/// Takes the bytes of the piece that belong to the head.
fn gather(kept: &mut Vec<u8>, place: &mut Place, piece: &[u8]) -> Gathered
    requires { IsReading kept.old.items place.old (vec_capacity kept.old) }
    ensures { Gathers kept.old.items piece.now result kept.new.items place.new (vec_capacity kept.new) }
{
    let room = HEAD_LIMIT - kept.len();
    let window = &piece[..piece.len().min(room)];
    let end = scan(place, window);
    let used = end.unwrap_or(window.len());
    kept.extend_from_slice(&window[..used]).unwrap();
    match end {
        Some(used) => Gathered::Whole(used),
        None if kept.len() < HEAD_LIMIT => Gathered::More,
        None => Gathered::TooLong,
    }
}

/// What the reader has of a head once a piece has come.
enum Taken {
    /// The reader was closed before, for this reason.
    Closed(HeadError),
    /// Nothing is decided yet.
    More,
    /// The head is whole; so many bytes of the piece belong to it.
    Whole(usize),
    /// There is no end within the limit.
    TooLong,
}

/// A reader of one head at a time, fed with the pieces of a stream. Contracts see its stage: the stream so far, or why
/// it is closed and the bytes that it has.
#[derive(Drop)]
pub struct HeadReader {
    kept: Vec<u8>,
    place: Place,
    closed: Option<HeadError>,
    alloc: Global,
}

impl Model for HeadReader {
    ghost use Rattle.std.specs.Prelude.{vec_capacity};
    ghost use Rattle.gw_head.specs.Stage.{Stage};
    ghost use Rattle.gw_head.specs.Take.{stage_of, KeepsStage};

    ghost Value = { Stage };

    ghost view = { λ r. stage_of r.closed r.kept.items };

    ghost invariant = { λ r. KeepsStage r.closed r.kept.items r.place (vec_capacity r.kept) };
}

impl HeadReader {
    /// A reader that has seen nothing; it reserves the 65,536 bytes that a head may have.
    pub fn new(alloc: Global) -> Result<HeadReader, NoMemory>
        ensures { IfOk result (λ reader. reader ≡ reads []) }
    {
        let kept = Vec::with_capacity(alloc, HEAD_LIMIT)?;
        Ok(HeadReader {
            kept,
            place: Place::Blank,
            closed: None,
            alloc,
        })
    }

    /// Begins a new head, of which nothing was seen. It keeps its room, and takes no memory.
    pub fn restart(&mut self)
        ensures { self.new ≡ reads [] }
    {
        self.kept.clear();
        self.place = Place::Blank;
        self.closed = None;
    }

    /// The bytes that the reader has: all so far of a head that hasn't ended, and all of a head that it gave, up to and
    /// with its end mark.
    pub fn bytes(&self) -> &[u8]
        ensures { result.now ≡ bytes_of self.now }
    {
        self.kept.as_slice()
    }

    /// Takes the next piece of a stream that begins with a request's head. `More` uses the whole piece. `Head`,
    /// `Bad` and `NoMemory` use it up to the head's end, and `Bad` all of it where 65,536 bytes have no end (H2). The
    /// error is that of the first check that the head fails. After these three the reader is closed: it uses nothing of
    /// a later piece, and answers `Bad` with its last error, or H1, until it is restarted.
    pub fn feed_request(&mut self, piece: &[u8]) -> Fed<RequestHead>
        ensures { Feeds RequestHeadOf BadRequestHead self.old piece.now result self.new }
    {
        self.feed(piece)
    }

    /// Takes the next piece of a stream that begins with a reply's head; what it uses and answers is as for a request.
    pub fn feed_reply(&mut self, piece: &[u8]) -> Fed<ReplyHead>
        ensures { Feeds ReplyHeadOf BadReplyHead self.old piece.now result self.new }
    {
        self.feed(piece)
    }

    // Takes the next piece of a stream that begins with a head of either kind.
    fn feed<H: Judged + Drop>(&mut self, piece: &[u8]) -> Fed<H>
        ensures { Feeds H.is_head H.is_bad self.old piece.now result self.new }
    {
        match self.take_in(piece) {
            Taken::Closed(error) => Fed {
                used: 0,
                step: Step::Bad(error),
            },
            Taken::More => Fed {
                used: piece.len(),
                step: Step::More,
            },
            Taken::Whole(used) => {
                let judged = H::judge(self.alloc, self.bytes());
                Fed {
                    used,
                    step: self.conclude(judged),
                }
            }
            Taken::TooLong => Fed {
                used: piece.len(),
                step: Step::Bad(HeadError::TooLong),
            },
        }
    }

    /// Takes the bytes of the piece that belong to the head; the reader closes where they end it.
    fn take_in(&mut self, piece: &[u8]) -> Taken
        ensures { Takes self.old piece.now result self.new }
    {
        if let Some(error) = self.closed {
            return Taken::Closed(error);
        }
        match gather(&mut self.kept, &mut self.place, piece) {
            Gathered::More => Taken::More,
            Gathered::Whole(used) => {
                self.closed = Some(HeadError::Malformed);
                Taken::Whole(used)
            }
            Gathered::TooLong => {
                self.closed = Some(HeadError::TooLong);
                Taken::TooLong
            }
        }
    }

    /// What is answered of a whole head that was judged so.
    fn conclude<H: Drop>(&mut self, judged: Result<H, Refusal>) -> Step<H>
        requires { self.old ≡ closed Malformed (bytes_of self.old) }
        ensures { Concludes judged (bytes_of self.old) result self.new }
    {
        match judged {
            Ok(head) => Step::Head(head),
            Err(Refusal::Bad(error)) => {
                self.closed = Some(error);
                Step::Bad(error)
            }
            Err(Refusal::NoMemory) => Step::NoMemory,
        }
    }
}
