//! Laws of the segments of literals, and of the literals of lists. Each function does nothing, and its contract is the law.

ghost use Rattle.rl_cursors.specs.Laws.{OffsetsInvertThePlaces, SegmentsMakeTheLiteral, ASegmentHasOneValue, ThePlacesOfBytesAreInOrder, TheOffsetsOfBytesAreInTheBody, ATakenLiteralIsRead};
ghost use Rattle.rl_cursors.specs.NextTokens.{ACursorHasOneNextLiteral, ACursorHasOneNextPosition, ACursorHasOneNextToken, ACursorStaysLexed, ASourceCursorHasOneNextPosition, ASourceCursorHasOneNextToken, ATakenLiteralIsANextLiteral};

/// The segments that [`Segments`](crate::Segments) returns for a literal fill the text between its quotes. Each segment
/// begins where the one before it ends. The values of all segments, joined, are the literal's value.
pub fn segments_join_to_the_literal()
    ensures { SegmentsMakeTheLiteral }
{}

/// A segment of a literal has one value. Plain characters have a text as their value. An escaped line end has no
/// value. The value of `\u{..}` is a character. The value of any other escape, and of a line end CR LF, is a character
/// if the literal is a `Str` or a `Char`, and otherwise a byte.
pub fn a_segment_has_one_value()
    ensures { ASegmentHasOneValue }
{}

/// Each byte of a literal's value is encoded by one range of the literal's text, which begins no later than it ends.
/// The ranges are in the order of the bytes: the range of a later byte neither begins nor ends before the range of an
/// earlier byte.
pub fn text_offsets_keep_the_order_of_bytes()
    ensures { ThePlacesOfBytesAreInOrder }
{}

/// Each byte of a quoted literal's value is encoded by a range of the literal's text that is within the body. An
/// offset at or after the value's end is mapped to the closing quote. If the body is its own value, each byte of the
/// body encodes the value's byte at the same offset.
pub fn text_offsets_are_in_the_body()
    ensures { TheOffsetsOfBytesAreInTheBody }
{}

/// The offsets in the value and in the text are inverse: [`value_offset`](crate::Segments::value_offset) of the place of a byte
/// is this byte, or the first byte of the same escape. So it has the same place.
pub fn value_offsets_invert_text_offsets()
    ensures { OffsetsInvertThePlaces }
{}

/// The parse result of a literal that [`next_literal`](crate::next_literal) returns is that of the literal's text.
pub fn a_next_literal_is_parsed_as_its_text()
    ensures { ATakenLiteralIsRead }
{}

/// A cursor has one next token, or none, and one position after the token. So `TakesNext` for [`Tokens`](rl_lexer::Tokens),
/// and `TakesSource` for [`Sources`](rl_lexer::Sources), fix the form, the text and the byte range of the token, and the next
/// cursor. For the next cursor, the text before the cursor has to be lexed into tokens: this is so for a new cursor, and
/// after each token.
pub fn a_cursor_has_one_next_token()
    ensures token { ACursorHasOneNextToken }
    ensures position { ACursorHasOneNextPosition }
    ensures stays { ACursorStaysLexed }
    ensures source_token { ASourceCursorHasOneNextToken }
    ensures source_position { ASourceCursorHasOneNextPosition }
{}

/// A cursor has at most one next literal: one token, one minus before it, and one position after it. A cursor that has a
/// next literal isn't one that [`next_literal`](crate::next_literal) returns `None` for.
pub fn a_cursor_has_one_next_literal()
    ensures one { ACursorHasOneNextLiteral }
    ensures never_both { ATakenLiteralIsANextLiteral }
{}
