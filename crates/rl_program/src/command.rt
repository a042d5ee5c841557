//! The commands of `rl_tool`.

use std::alloc::Allocator;

/// A command of `rl_tool`.
#[derive(Clone, Copy, PartialEq, Eq, Debug)]
pub enum Command {
    /// Reads the whole input as one literal.
    Text,
    /// Reads the input as literals. White space and comments separate them.
    Read,
    /// Reads the input as attributes. An attribute is a name, `=` and a literal, and commas separate attributes.
    Attr,
}

impl Command {
    ghost use Rattle.std.specs.Prelude.{◌≡◌, ◌≢◌, IfSome, IfNone};
    ghost use Rattle.rl_program.specs.declared.command.Command.{Command};
    ghost use Rattle.rl_program.specs.Commands.{command_word, AskFor};

    /// Returns the command with the name, or `None` if it is unknown.
    pub fn from_name(name: &str) -> Option<Command>
        ensures known { IfSome result (λ command. name.now ≡ command_word command) }
        ensures unknown { IfNone result ((command : Command) → name.now ≢ command_word command) }
    {
        match name {
            "text" => Some(Command::Text),
            "read" => Some(Command::Read),
            "attr" => Some(Command::Attr),
            _ => None,
        }
    }

    /// Returns the command that the program's arguments name. The arguments must be the program's name and the name of a command,
    /// else the result is `None`.
    pub fn parse_arguments<A: Allocator>(args: &[String<A>]) -> Option<Command>
        ensures asked { IfSome result (AskFor args.now) }
        ensures unasked { IfNone result ((command : Command) → AskFor args.now command → ⊥) }
    {
        match args {
            [_, name] => Command::from_name(name.as_str()),
            _ => None,
        }
    }
}
