//! A program that reads a server's settings from standard input, and prints them, or the error and its position.

use rl_attributes::{Setting, SettingError, read};
use std::alloc::Global;
use std::io;
use std::process::ExitCode;

const PORT: Setting = Setting {
    name: "port",
    expected: "an integer from 0 to 65535",
};

const HOST: Setting = Setting {
    name: "host",
    expected: "a string",
};

#[derive(Drop)]
struct Server {
    host: String,
    port: u16,
}

fn server_of(alloc: Global, text: &str) -> Result<Server, SettingError> {
    let attrs = read(alloc, text, 4)?;
    attrs.check(&[HOST, PORT])?;
    let host = match attrs.string(alloc, HOST)? {
        Some(host) => host,
        None => String::from_str(alloc, "localhost")?,
    };
    let port = attrs.number(alloc, PORT)?.unwrap_or(80);
    Ok(Server { host, port })
}

/// Reads a server's settings from standard input, and prints them, or the error and its position.
pub fn print_settings(rt: HostRuntime) -> io::Result<ExitCode> {
    let alloc = rt.alloc();
    let text = io::read_to_string(alloc, rt.stdin())?;
    match server_of(alloc, text.as_str()) {
        Ok(server) => {
            println!(rt; "{}:{}", server.host, server.port)?;
            Ok(ExitCode::SUCCESS)
        }
        Err(error) => {
            let span = error.span();
            eprintln!(rt; "error at {}..{}: {error}", span.lo, span.hi)?;
            Ok(ExitCode::FAILURE)
        }
    }
}
