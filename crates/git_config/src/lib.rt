//! Reads the text of a Git config (git-config).
#![tactic(auto)]

ghost use Rattle.std.specs.Prelude.{IfOk, map};
ghost use Rattle.git_config.specs.Grammar.{IsConfig};
ghost use Rattle.git_config.specs.Views.{said};

mod syntax;
mod values;

use crate::syntax::{Stop, line_number, read_item, without_mark};
use std::alloc::{AllocError, Global};
pub use values::{is_boolean, number};

/// A variable of a config.
#[derive(Drop)]
pub struct Variable {
    /// The name is made of the section, the subsection and the key, with dots between them. The
    /// section and the key are in lowercase.
    pub name: Vec<u8>,
    /// The value, or `None` if no `=` follows the key.
    pub value: Option<Vec<u8>>,
}

/// The variables of a config, up to its first bad line.
#[derive(Drop)]
pub struct Config {
    /// The variables, in the order of the text.
    pub variables: Vec<Variable>,
    /// The number of the first line that is neither a section nor a variable, counted from 1, or
    /// `None` if there is no such line. As in Git, it is the next number if the line ends after a
    /// subsection, or if the text ends in the name of a section or after a backslash in quotation
    /// marks.
    pub bad_line: Option<usize>,
}

/// Reads the text of a config, up to its first bad line. The error is that memory runs out.
pub fn read(alloc: Global, text: &[u8]) -> Result<Config, AllocError>
    ensures { IfOk result (λ config.
        IsConfig text.now (map said config.variables.items) config.bad_line) }
{
    let mut variables = Vec::new(alloc);
    let mut section = Vec::new(alloc);
    let mut left = without_mark(text);
    while let Some((byte, rest)) = left.split_first() {
        match read_item(alloc, &mut section, *byte, rest) {
            Ok((found, after)) => {
                if let Some(variable) = found {
                    variables.push(variable)?;
                }
                left = after;
            }
            Err(Stop::Wrong(after)) => {
                return Ok(Config {
                    variables,
                    bad_line: Some(line_number(text, after)),
                });
            }
            Err(Stop::Memory) => return Err(AllocError),
        }
    }
    Ok(Config {
        variables,
        bad_line: None,
    })
}
