//! Theorems about Rust's two grammars of literals. Each function here does nothing when it is called: its contract is a
//! theorem about all texts.

pub use rl_cursors::laws::{
    a_next_literal_is_parsed_as_its_text, a_segment_has_one_value, segments_join_to_the_literal,
    text_offsets_are_in_the_body, text_offsets_keep_the_order_of_bytes,
};
pub use rl_lenient::laws::{
    a_parsed_literal_has_the_value_of_its_text, byte_literals_without_cr_are_strict,
    utf8_decoding_keeps_a_leading_minus,
};
pub use rl_strict::laws::{
    a_bad_quote_is_not_a_literal, a_strict_literal_is_a_syn_literal_or_above_128_bits,
    a_text_has_one_flaw, a_text_has_one_signed_flaw, a_text_has_one_value_flaw,
    a_text_in_a_file_has_one_flaw, a_text_in_a_file_has_one_signed_flaw,
    a_text_in_a_file_has_one_signed_value_flaw, a_text_in_a_file_has_one_value_flaw,
    strict_digits_represent_their_number,
};
