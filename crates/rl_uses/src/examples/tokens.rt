//! Examples of `rl_tokens`: functions that use spans, tokens and the lexer.

use rl_tokens::ident::xid_ok;
use rl_tokens::{
    Delimiter, LexKind, SourceForm, Sources, Span, TokenTree, Tokens, lex, whitespace,
    write_str_list,
};
use std::alloc::Global;

/// Returns the part of `text` in the byte range of `span`.
pub fn text_at(text: &str, span: Span) -> Option<&str> {
    text.get(span.lo..span.hi)
}

/// Returns the second token of `text`.
pub fn second_token(text: &str) -> Option<&str> {
    let mut tokens = Tokens::new(text);
    tokens.next()?;
    Some(tokens.next()?.text)
}

/// Returns the reason why `text` doesn't begin with a token.
pub fn lex_error_kind(text: &str) -> Option<LexKind> {
    Some(Tokens::new(text).error()?.kind)
}

/// Returns the doc comment at the start of the source text `source`.
pub fn leading_doc_comment(source: &str) -> Option<&str> {
    let token = Sources::new(source).next()?;
    match token.form {
        SourceForm::DocComment => Some(token.text),
        _ => None,
    }
}

/// Returns the byte offsets of all literals and all errors of the source text `source`. After each error, lexing
/// resumes in the next line.
pub fn literal_and_error_offsets(alloc: Global, source: &str) -> Option<Vec<usize>> {
    let mut places = Vec::new(alloc);
    let mut lines = source;
    loop {
        let front = source.len() - lines.len();
        let mut tokens = Sources::new(lines);
        while let Some(literal) = tokens.next_literal() {
            places.push(front + literal.lo).ok()?;
        }
        if let Some(error) = tokens.error() {
            places.push(front + error.at).ok()?;
        }
        match tokens.following_lines() {
            Some(following) => lines = following,
            None => return Some(places),
        }
    }
}

/// Returns the part of `text` after the white space and the comments at its start.
pub fn after_comments(text: &str) -> &str {
    whitespace::skip(text)
}

/// Returns `true` if `text` can be an identifier.
pub fn is_identifier(text: &str) -> bool {
    xid_ok(text)
}

/// Returns the delimiters of the group at the start of `text`.
pub fn first_delimiter(alloc: Global, text: &str) -> Option<Delimiter> {
    let stream = lex(alloc, text, 0).ok()?;
    match stream.trees().first()? {
        TokenTree::Group(group) => Some(group.delimiter()),
        _ => None,
    }
}

/// Returns the text of a list with the string `name` alone.
pub fn list_of_one_name(alloc: Global, name: &str) -> Option<String> {
    let mut names = Vec::new(alloc);
    names.push(String::from_str(alloc, name).ok()?).ok()?;
    write_str_list(alloc, names.as_slice()).ok()
}
