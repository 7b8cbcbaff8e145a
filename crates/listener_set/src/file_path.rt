//! Paths of files.
ghost use Rattle.std.specs.Prelude.{◌≡◌, ◌≤◌, ◌++◌, length, codes};
ghost use Rattle.listener_set.specs.PathText.{path_reading, is_path, IsFilePath};

use crate::address::is_graphic;
use crate::short_text::ShortText;
use std::error::Error;
use std::fmt;
use std::marker::Model;

/// The most bytes of a path that is read.
pub const FILE_PATH_BYTES: usize = 100;

/// F1: the text is no path. It does not begin with a slash, is longer than 100 bytes, or has a byte that is not graphic
/// ASCII.
#[derive(Clone, Copy, Debug, PartialEq, Eq)]
pub struct BadFile;

impl BadFile {
    ghost use Rattle.listener_set.specs.Codes.{file_code};

    /// The code of the rule, as it is printed.
    pub fn code(&self) -> &'static str
        ensures { result.now ≡ file_code }
    {
        "F1"
    }
}

/// Printed as its code.
impl fmt::Display for BadFile {
    ghost use Rattle.std.specs.Prelude.{Some};
    ghost use Rattle.listener_set.specs.Codes.{file_code};

    ghost output = { λ _. Some file_code };

    fn fmt<W: fmt::Write>(&self, f: &mut fmt::Formatter<W>) -> fmt::Result {
        f.write_str(self.code())
    }
}

impl Error for BadFile {}

/// The path of a file, of at most 107 bytes, each graphic ASCII: one that was read, of at most 100
/// bytes, or such a one with `.oldbin` behind it.
#[derive(Clone, Copy, Debug, PartialEq, Eq)]
pub struct FilePath {
    text: ShortText,
}

impl Model for FilePath {
    ghost use Rattle.std.specs.Prelude.{ℕ, List};
    ghost use Rattle.listener_set.specs.PathText.{IsFilePath};

    ghost Value = { List ℕ };

    ghost view = { λ p. p.text };

    ghost invariant = { λ p. IsFilePath p.text };

    ghost inverse = { λ text. record { text = text } };
}

fn is_path(text: &[u8]) -> bool
    ensures { result ≡ is_path text.now }
{
    text.len() <= FILE_PATH_BYTES && text.first() == Some(&b'/') && is_graphic(text)
}

impl FilePath {
    /// Reads a path: it begins with `/` and has at most 100 bytes, each graphic ASCII.
    /// `BadFile` where it is anything else.
    pub fn read(text: &[u8]) -> Result<Self, BadFile>
        ensures { result ≡ path_reading text.now }
    {
        if !is_path(text) {
            return Err(BadFile);
        }
        Ok(FilePath {
            text: ShortText::new(text),
        })
    }

    /// The bytes of the path.
    pub fn bytes(&self) -> &[u8]
        ensures text { result.now ≡ self.now }
        ensures is_path { IsFilePath self.now }
    {
        self.text.bytes()
    }

    /// The path with `.oldbin` behind it, where an upgrade keeps the old master's pid file.
    pub fn oldbin(&self) -> Self
        requires { length self.now ≤ FILE_PATH_BYTES }
        ensures { result ≡ self.now ++ codes ".oldbin" }
    {
        let _ = &self.text;
        FilePath {
            text: self.text.followed_by(b".oldbin"),
        }
    }
}
