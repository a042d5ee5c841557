//! Examples of `rl_attributes`: functions that read settings from a text.

use rl_attributes::{Setting, read};
use rust_literals::Lit;
use std::alloc::Global;

/// Returns the string that the settings in `text` set `name` to.
pub fn string_setting(alloc: Global, text: &str, name: &str) -> Option<String> {
    let attrs = read(alloc, text, 0).ok()?;
    match attrs.get(name)? {
        Lit::Str(literal) => literal.value(alloc).ok(),
        _ => None,
    }
}

/// Returns the string that the settings in `text` set `host` to, or `None` if they don't set it.
pub fn optional_host(alloc: Global, text: &str) -> Option<String> {
    let host = Setting {
        name: "host",
        expected: "a string",
    };
    let attrs = read(alloc, text, 0).ok()?;
    attrs.string(alloc, host).ok()?
}

/// Returns the string that the settings in `text` set `host` to. The setting is required.
pub fn required_host(alloc: Global, text: &str) -> Option<String> {
    let host = Setting {
        name: "host",
        expected: "a string",
    };
    read(alloc, text, 0).ok()?.required_string(alloc, host).ok()
}

/// Returns the integer that the settings in `text` set `port` to, or 80 if they don't set it.
pub fn port_or_80(alloc: Global, text: &str) -> Option<u64> {
    let port = Setting {
        name: "port",
        expected: "an integer from 0 to 65535",
    };
    read(alloc, text, 0).ok()?.unsigned_or(port, 65535, 80).ok()
}

/// Returns the byte offset at which the missing setting `host` is reported, which is the end of `text`. Returns `None`
/// if `text` sets `host`.
pub fn missing_host_offset(alloc: Global, text: &str) -> Option<usize> {
    let host = Setting {
        name: "host",
        expected: "a string",
    };
    let attrs = read(alloc, text, 0).ok()?;
    match attrs.get(host.name) {
        Some(_) => None,
        None => Some(attrs.missing_error(host).span().lo),
    }
}
