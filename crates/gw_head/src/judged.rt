//! The two kinds of head.
ghost use Rattle.std.specs.Prelude.{ℕ, List};
ghost use Rattle.gw_head.specs.declared.error.HeadError.{HeadError};
ghost use Rattle.gw_head.specs.Head.{RequestHeadOf, BadRequestHead, ReplyHeadOf, BadReplyHead, Judges};
ghost use Rattle.gw_head.specs.Mark.{IsWhole};

use crate::error::Refusal;
use crate::reply::{ReplyHead, judge_reply};
use crate::request::{RequestHead, judge_request};
use std::alloc::Global;

/// A head that is judged by the bytes of the whole of it.
pub(crate) trait Judged: Sized {
    ghost is_head: { List ℕ → Self → Type 0 };

    ghost is_bad: { List ℕ → HeadError → Type 0 };

    /// Judges the bytes of one head up to and with its end mark.
    fn judge(alloc: Global, head: &[u8]) -> Result<Self, Refusal>
        requires { IsWhole head.now }
        ensures { Judges is_head is_bad head.now result };
}

impl Judged for RequestHead {
    ghost is_head = { RequestHeadOf };

    ghost is_bad = { BadRequestHead };

    fn judge(alloc: Global, head: &[u8]) -> Result<RequestHead, Refusal> {
        judge_request(alloc, head)
    }
}

impl Judged for ReplyHead {
    ghost is_head = { ReplyHeadOf };

    ghost is_bad = { BadReplyHead };

    fn judge(alloc: Global, head: &[u8]) -> Result<ReplyHead, Refusal> {
        judge_reply(alloc, head)
    }
}
