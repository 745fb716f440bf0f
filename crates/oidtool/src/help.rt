//! What `--help` and `--version` print. `tools/runs` compares it with the file `help`.

/// The first line of the help.
pub const VERSION: &str = "oidtool 0.7.0 of Nunbirdstand
";

/// The lines after it.
pub const REST: &str =
    "Finds object ids by their beginnings in sorted lists, and writes the digests of streams and files.
usage: oidtool find PREFIX | find-change LETTERS | find-in KIND PREFIX | hash KIND | hash-file KIND N PATH | seal KIND

  find PREFIX            prints the ids of a sorted list that begin with the prefix
  find-change LETTERS    the same, with the prefix and the output, but not the list, in Jujutsu's letters z to k
  find-in KIND PREFIX    the same for a strictly increasing list of one kind
  hash KIND              prints the digest of its input
  hash-file KIND N PATH  prints the digest of the first N bytes of a file
  seal KIND              writes its input, and then the bytes of its digest
  -h, --help             prints this text
  -V, --version          prints its first line

A list has an id in hex digits on each line. Standard input gives the list, and what is hashed or sealed. KIND is sha1 or
sha256, and N is in decimal digits, before which there may be a +. The exit status is 0 if a search found an id or a digest
was written, 1 if a search found none, and 2 after an error, which is printed on standard error. DIAGNOSTICS in oidtool(1)
explains the errors.
";
