// The words that the desk is started with.
ghost use Rattle.std.specs.Prelude.{◌≡◌, map, string_bytes};
ghost use Rattle.desk.specs.Arguments.{answered, asked};

use std::error::Error;
use std::fmt;

pub const HELP: &str = "\
The desk reads a member's stream from standard input and prints every record of it in clear.

usage: desk [-]
       desk --help

  -         read standard input, as without any argument
  --help    print this text

A record is one line: the offset of its first byte, its mark and its fields. A stream that breaks
off or has an unknown mark is refused there by number, layer and place. The last line says how
many bytes were read and how many records were seen.
";

#[derive(Clone, Copy, PartialEq, Eq, Debug)]
pub enum Request {
    Help,
    Listing,
}

#[derive(Clone, Copy, PartialEq, Eq, Debug)]
pub enum BadArguments<'a> {
    Unknown(&'a str),
    TooMany,
}

// What the words after the program's name ask for.
pub fn parse(words: &[String]) -> Result<Request, BadArguments<'_>>
    ensures { answered result ≡ asked (map string_bytes words.now) }
{
    match words {
        [] => Ok(Request::Listing),
        [word] => match word.as_str() {
            "-" => Ok(Request::Listing),
            "--help" => Ok(Request::Help),
            other => Err(BadArguments::Unknown(other)),
        },
        _ => Err(BadArguments::TooMany),
    }
}

impl fmt::Display for BadArguments<'_> {
    fn fmt<W: fmt::Write>(&self, f: &mut fmt::Formatter<W>) -> fmt::Result {
        match self {
            BadArguments::Unknown(word) => write!(f, "unknown argument {word:?} (see desk --help)"),
            BadArguments::TooMany => write!(f, "more than one argument (see desk --help)"),
        }
    }
}

impl Error for BadArguments<'_> {}
