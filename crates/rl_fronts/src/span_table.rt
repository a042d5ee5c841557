//! A table of the spans from which the bytes of a quoted literal's decoded value come.

ghost use Rattle.std.specs.Prelude.{◌≡◌, ◌<◌, ◌≤◌, ◌+◌, ℕ, length, slice_index_or, OnOk, IfOk};
ghost use Rattle.rl_syntax.specs.Spans.{nowhere};
ghost use Rattle.rl_cursors.specs.Segments.{IsSpanTable, segment_end, segment_place, span_from, value_bytes};

use rl_cursors::{Segment, Segments};
use rl_tokens::Span;
use std::alloc::{AllocError, Allocator};

/// Appends a span to `spans` for each byte that `segment`, a part of a quoted literal, decodes to: the range in the
/// file of the text from which the byte comes. The literal's text begins at the first byte of `base`.
fn push_spans<A: Allocator>(
    spans: &mut Vec<Span, A>,
    base: Span,
    segment: Segment<'_>,
) -> Result<(), AllocError>
    requires within { (i : ℕ) → i < length (value_bytes segment.value)
        → segment_place segment i < segment.hi }
    requires fits { base.lo + segment.hi ≤ base.hi }
    ensures long { OnOk result (length spans.new.items
        ≡ length spans.old.items + length (value_bytes segment.entry.value)) }
    ensures kept { OnOk result ((k : ℕ) → k < length spans.old.items
        → slice_index_or spans.new.items k nowhere ≡ slice_index_or spans.old.items k nowhere) }
    ensures added { OnOk result ((i : ℕ) → i < length (value_bytes segment.entry.value)
        → slice_index_or spans.new.items (length spans.old.items + i) nowhere
        ≡ span_from base (segment_place segment.entry i) (segment_end segment.entry i)) }
{
    for i in 0..segment.value.len() {
        spans.push(Span {
            file: base.file,
            lo: base.lo + segment.text_offset(i),
            hi: base.lo + segment.text_offset_after(i),
        })?;
    }
    Ok(())
}

/// Returns a table with a span for each byte of a quoted literal's decoded value, from the next segment of `segments`
/// on. A byte's span is the range in the file of the character or escape from which the byte comes. The table has one
/// more span at the end, which is empty and at the closing quote.
///
/// `base` is the literal's span: the literal's text begins at its first byte and ends at its last one. The function walks over
/// the segments once. [`text_offset`](Segments::text_offset) and [`text_offset_after`](Segments::text_offset_after) return the
/// same offsets for one byte at a time.
///
/// # Errors
///
/// Returns an error if an allocation fails.
pub fn value_byte_spans<A: Allocator>(
    alloc: A,
    mut segments: Segments<'_>,
    base: Span,
) -> Result<Vec<Span, A>, AllocError>
    requires { base.lo + (segments.at + length segments.rest) ≤ base.hi }
    ensures { IfOk result (λ table. IsSpanTable segments.entry base table.items) }
{
    let mut spans = Vec::new(alloc);
    while let Some(segment) = segments.next() {
        push_spans(&mut spans, base, segment)?;
    }
    let end = base.lo + segments.next_offset();
    spans.push(Span {
        file: base.file,
        lo: end,
        hi: end,
    })?;
    Ok(spans)
}
