//! Reads what a repository's config (git-config) says of its format and its ids.

ghost use Rattle.std.specs.Prelude.{◌≡◌, ◌⊎◌, IsErrAnd, IsSome, MatchOption, None, Some, bytes_eq, option_map};
ghost use Rattle.std.specs.List.{list_any};
ghost use Rattle.repositories.specs.Formats.{Reports, Says, extension, fault_of, kind_in_format, kind_of, kind_or_fault, known, needs_of, of_any_version, reported, text_of, unknown_of, value_named, version_of};

use git_config::{Config, Variable, is_boolean, number};
use gix_hash::Kind;
use std::alloc::{AllocError, Global};
use std::fmt;
use thiserror::Error as ThisError;

// The extensions that only version 1 of the format has. The last two are of Git 2.45 and 2.48: how
// refs are stored, and how worktrees are linked.
const OF_VERSION_1: [Name; 4] = [
    Name::NoopV1,
    Name::ObjectFormat,
    Name::RefStorage,
    Name::RelativeWorktrees,
];

// The extensions that version 0 has, too.
const OF_ANY_VERSION: [&str; 4] = ["noop", "partialclone", "preciousobjects", "worktreeconfig"];

// The variables about the format that are booleans.
const BOOLEANS: [Name; 3] = [Name::Bare, Name::PreciousObjects, Name::WorktreeConfig];

/// The name of a variable that has to be a boolean, or of an extension that only version 1 of a
/// repository's format has.
#[derive(Clone, Copy, Debug)]
pub enum Name {
    /// The variable `core.bare`.
    Bare,
    /// The variable `extensions.preciousobjects`.
    PreciousObjects,
    /// The variable `extensions.worktreeconfig`.
    WorktreeConfig,
    /// The extension `noop-v1`.
    NoopV1,
    /// The extension `objectformat`.
    ObjectFormat,
    /// The extension `refstorage`.
    RefStorage,
    /// The extension `relativeworktrees`.
    RelativeWorktrees,
}

impl Name {
    /// The name as `git config --list` prints it; that of an extension without its section.
    pub fn as_str(&self) -> &str
        ensures { result.now ≡ text_of self.now }
    {
        match self {
            Name::Bare => "core.bare",
            Name::PreciousObjects => "extensions.preciousobjects",
            Name::WorktreeConfig => "extensions.worktreeconfig",
            Name::NoopV1 => "noop-v1",
            Name::ObjectFormat => "objectformat",
            Name::RefStorage => "refstorage",
            Name::RelativeWorktrees => "relativeworktrees",
        }
    }
}

/// Prints the text of [`as_str`](Name::as_str), whatever width, fill and precision are asked for.
impl fmt::Display for Name {
    ghost output = { λ name. Some (text_of name) };

    ghost styled_output = { λ name _. Some (text_of name) };

    fn fmt<W: fmt::Write>(&self, f: &mut fmt::Formatter<W>) -> fmt::Result {
        f.write_str(self.as_str())
    }
}

/// Why a config does not say a kind.
#[derive(Debug, Drop, ThisError)]
pub enum ConfigError {
    /// The line of this number, counted from 1, is neither a section nor a variable.
    #[error("bad config line {0}")]
    Line(usize),
    /// The version of the repository's format is not a number of 32 bits.
    #[error("core.repositoryformatversion is not a number")]
    NoVersion,
    /// This variable has to be a boolean, and is not.
    #[error("{0} is neither true nor false")]
    NoBoolean(Name),
    /// This version of the repository's format is above 1.
    #[error("expected git repo version <= 1, found {0}")]
    Version(i64),
    /// The repository's format has this extension, which is not known.
    #[error("unknown repository extension found: {0}")]
    Extension(String),
    /// The version of the repository's format is 0, and this extension needs version 1.
    #[error("repo version is 0, but v1-only extension found: {0}")]
    NeedsVersion1(Name),
    /// `extensions.objectformat` is neither `sha1` nor `sha256`.
    #[error("extensions.objectformat is neither sha1 nor sha256")]
    Kind,
    /// There is not enough memory.
    #[error("out of memory")]
    Memory(#[from(alloc)] AllocError),
}

/// Reads the kind of a repository's ids from the text of its config. It is the last value of
/// `extensions.objectformat`, or SHA-1 if there is none. As in Git, a text without
/// `core.repositoryformatversion` has no extensions, and files that it includes are not read.
///
/// The error is `Memory` if memory runs out. Otherwise it is the first value that is wrong before
/// the first bad line, or else that line, or else what is wrong with the format that the variables
/// say together.
///
/// ```
/// let text = b"[core]\n\trepositoryformatversion = 1\n[extensions]\n\tobjectformat = sha256\n";
/// assert!(rt; matches!(kind_in_config(rt.alloc(), text), Ok(Kind::Sha256)));
/// ```
pub fn kind_in_config(alloc: Global, text: &[u8]) -> Result<Kind, ConfigError>
    ensures { IsErrAnd result (λ error. reported error ≡ None) ⊎ Says text.now result }
{
    match git_config::read(alloc, text) {
        Ok(config) => kind_or_fault(alloc, &config),
        Err(error) => Err(ConfigError::Memory(error)),
    }
}

// The kind of a repository's ids by its config, or what is wrong first with the config.
#[tactic(auto, using(crate::proofs::Settings::view_or, crate::proofs::Settings::first_is))]
fn kind_or_fault(alloc: Global, config: &Config) -> Result<Kind, ConfigError>
    ensures { Reports (kind_or_fault config.now.variables.items config.now.bad_line) result }
{
    let (mut version, mut kind, mut needs, mut unknown) = (None, None, None, None);
    let mut left = config.variables.as_slice();
    while let Some((variable, rest)) = left.split_first() {
        if let Some(error) = fault_of(variable) {
            return Err(error);
        }
        version = version_of(variable).or(version);
        kind = kind_of(variable).or(kind);
        needs = needs_of(variable).or(needs);
        unknown = unknown_of(variable).or(unknown);
        left = rest;
    }
    match config.bad_line {
        Some(line) => Err(ConfigError::Line(line)),
        None => kind_in_format(alloc, version, kind, needs, unknown),
    }
}

// The kind of the ids in this version of the format, if the version has the extensions.
fn kind_in_format(
    alloc: Global,
    version: Option<i64>,
    kind: Option<Kind>,
    needs: Option<Name>,
    unknown: Option<&[u8]>,
) -> Result<Kind, ConfigError>
    ensures { Reports (kind_in_format version kind needs
        (option_map (λ name. name.now) unknown.entry)) result }
{
    let (version, kind) = (version.unwrap_or(-1), kind.unwrap_or(Kind::Sha1));
    match (needs, unknown) {
        _ if version < -1 => Ok(kind),
        _ if version < 0 => Ok(Kind::Sha1),
        _ if version > 1 => Err(ConfigError::Version(version)),
        (Some(name), _) if version < 1 => Err(ConfigError::NeedsVersion1(name)),
        (_, Some(name)) if version > 0 => match String::from_utf8_lossy(alloc, name) {
            Ok(name) => Err(ConfigError::Extension(name)),
            Err(error) => Err(ConfigError::Memory(error)),
        },
        _ => Ok(kind),
    }
}

// What is wrong with the value of a variable.
fn fault_of(variable: &Variable) -> Option<ConfigError>
    ensures { MatchOption result (fault_of variable.now ≡ None)
        (λ error. (fault_of variable.now ≡ reported error) × IsSome (reported error)) }
{
    if is(&variable.name, "core.repositoryformatversion") && version_of(variable).is_none() {
        return Some(ConfigError::NoVersion);
    }
    if is(&variable.name, "extensions.objectformat") && kind_of(variable).is_none() {
        return Some(ConfigError::Kind);
    }
    if is_boolean(&variable.value) {
        return None;
    }
    Some(ConfigError::NoBoolean(known(&BOOLEANS, &variable.name)?))
}

// The version of the format that a variable sets.
fn version_of(variable: &Variable) -> Option<i64>
    ensures { result ≡ version_of variable.now }
{
    number(value_named(variable, "core.repositoryformatversion")?)
}

// The kind that a variable sets.
fn kind_of(variable: &Variable) -> Option<Kind>
    ensures { result ≡ kind_of variable.now }
{
    let text = value_named(variable, "extensions.objectformat")?;
    if is(text, "sha1") {
        Some(Kind::Sha1)
    } else if is(text, "sha256") {
        Some(Kind::Sha256)
    } else {
        None
    }
}

// The value of a variable, if it has this name.
fn value_named<'a>(variable: &'a Variable, name: &str) -> Option<&'a [u8]>
    ensures { option_map (λ text. text.now) result ≡ value_named name.now variable.now }
{
    if is(&variable.name, name) {
        variable.value.as_deref()
    } else {
        None
    }
}

// The extension that a variable sets, if only version 1 has it.
fn needs_of(variable: &Variable) -> Option<Name>
    ensures { result ≡ needs_of variable.now }
{
    known(&OF_VERSION_1, extension(&variable.name)?)
}

// The extension that a variable sets, if no version has it.
fn unknown_of(variable: &Variable) -> Option<&[u8]>
    ensures { option_map (λ name. name.now) result ≡ unknown_of variable.now }
{
    let name = extension(&variable.name)?;
    if known(&OF_VERSION_1, name).is_some() || is_of_any_version(name) {
        None
    } else {
        Some(name)
    }
}

// Whether version 0 has this extension, too.
fn is_of_any_version(name: &[u8]) -> bool
    ensures { result ≡ list_any (bytes_eq name.now) of_any_version }
{
    OF_ANY_VERSION.iter().any(|known| is(name, known))
}

// The name of the extension that a variable sets, which follows the section.
fn extension(name: &[u8]) -> Option<&[u8]>
    ensures { option_map (λ extension. extension.now) result ≡ extension name.now }
{
    name.strip_prefix(b"extensions.")
}

// The name among these that is the same as this one, if there is one.
fn known(names: &[Name], name: &[u8]) -> Option<Name>
    ensures { result ≡ known names.now name.now }
{
    names.iter().copied().find(|known| is(name, known.as_str()))
}

// Whether a text is this one.
fn is(text: &[u8], word: &str) -> bool
    ensures { result ≡ bytes_eq text.now word.now }
{
    text == word.as_bytes()
}
