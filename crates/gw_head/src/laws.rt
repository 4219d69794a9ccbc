//! Laws of the definitions, each the contract of a function that does nothing.
ghost use Rattle.gw_head.specs.Laws.{RequestEndsAtMark, ReplyEndsAtMark, MarkStays, OneRequestAnswer, OneReplyAnswer, NoRequestBeginsAnother, NoReplyBeginsAnother, WrittenReplyIsRead, WrittenRequestIsRead, ReadReplyIsWritable, ReadRequestIsWritable};

/// A head that the grammar of `httparse` reads at the front of some bytes ends with the end mark of those bytes.
pub fn grammar_ends_at_mark()
    ensures requests { RequestEndsAtMark }
    ensures replies { ReplyEndsAtMark }
{}

/// Bytes have one head, or one first check that they fail, and not both.
pub fn heads_have_one_answer()
    ensures requests { OneRequestAnswer }
    ensures replies { OneReplyAnswer }
{}

/// The end mark of some bytes stays where it is, whatever follows them. So no head is the front of another.
pub fn no_head_begins_another()
    ensures mark { MarkStays }
    ensures requests { NoRequestBeginsAnother }
    ensures replies { NoReplyBeginsAnother }
{}

/// A head of at most 65,536 bytes and 128 fields that is written plainly (each line ended by CR LF, one space before each
/// value), whose parts fail no check, is read with just these parts: a reply's in either version, a request's in
/// HTTP/1.1.
pub fn written_heads_are_read()
    ensures replies { WrittenReplyIsRead }
    ensures requests { WrittenRequestIsRead }
{}

/// What is read of a head can be written again. Its fields stand in lines as they are, and its length is less than
/// 2^63; a reply's code has three digits, a request's method is a token other than CONNECT, and its host has visible
/// bytes alone, of which none ends a host in a URI.
pub fn read_heads_are_writable()
    ensures replies { ReadReplyIsWritable }
    ensures requests { ReadRequestIsWritable }
{}
