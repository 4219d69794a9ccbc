//! Laws of chunked texts. Each is a function with an empty body, whose `ensures` is the law.
ghost use Rattle.gw_chunk.specs.Laws.{CodedGoesOn, CodedIsChunked, CodedIsReadAlone, CutsAreCoded, FaultsFromFirst, NoFaultInText, NoTextBeginsAnother, OneFault, PartsFromFirst, PiecesAreChunked, TextsFromFirst, UndecidedIsNeither};

/// What is said of texts, of their parts and of faults from the first position is what the grammar says (RFC 9112,
/// section 7.1).
pub fn positions_follow_grammar()
    ensures texts { TextsFromFirst }
    ensures faults { FaultsFromFirst }
    ensures parts { PartsFromFirst }
{}

/// Nothing is decided from a position exactly where neither the end of a text nor a fault has come.
pub fn undecided_is_neither()
    ensures { UndecidedIsNeither }
{}

/// No chunked text is the front of another, and each has one data.
pub fn no_text_begins_another()
    ensures { NoTextBeginsAnother }
{}

/// A fault is decided at one place, and there is no other; bytes that begin with a text have none.
pub fn faults_have_one_place()
    ensures one { OneFault }
    ensures none_in_text { NoFaultInText }
{}

/// The encoder's text of data is what it writes of the data's pieces of 8,192 bytes and a last one of the rest.
pub fn coded_piece_by_piece()
    ensures cut { CutsAreCoded }
    ensures goes_on { CodedGoesOn }
{}

/// What the encoder writes, of up to 2^62 bytes of data, is read as its data, whatever follows.
pub fn coded_is_read_as_its_data()
    ensures pieces { PiecesAreChunked }
    ensures text { CodedIsChunked }
    ensures alone { CodedIsReadAlone }
{}
