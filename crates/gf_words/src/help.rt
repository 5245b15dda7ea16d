//! What help says about the program and its commands.

/// The version of the program.
pub const VERSION: &str = "1.0.0";

/// What each help begins with.
pub const HEAD: &str = "gamefile 1.0.0";

pub const ABOUT: &str = "\
Check Gambit game files, write them in canonical form or as tables, and compare
them";

pub const AFTER: &str = "\
A game file is extensive (.efg) and holds a tree, or strategic (.nfg) and holds
a table; its first word tells which. Without a command, the canonical text of
standard input is written: see 'gamefile help canon'. The file '-' is standard
input, and './-' is a file of that name.

Exit status:
  0  done; for same: the files are the same
  1  for same: the files are different; for duplicates: some are the same; for
     canon --check: some are not in canonical form
  2  a file is refused, and standard error has a code and a place, such as
     E4 at 40..43; or a tree has no table, and standard error says why
  3  wrong usage
  4  a file cannot be opened or read (E20), or the output cannot be
     written (E21)
  5  out of memory (E19)

Example:
  gamefile check game.efg";

pub const FILE: &str = "The game file; standard input if none is named";

pub const EXPLAIN: &str = "Explain what is wrong, and where";

pub const CANON: &str = "Write the canonical text of a game file";

pub const CANON_FILES: &str = "\
One file; with --check or --write, files and folders;
if none, standard input (not for --write)";

pub const CANON_CHECK: &str = "Write the names of files that are not in canonical form";

pub const CANON_WRITE: &str = "Replace each file by its canonical text";

pub const AFTER_CANON: &str = "\
Writes the game as a game file in canonical form, so that two files of the same
game get the same text. The layout is fixed, numbers are exact and in lowest
terms, and the information sets and outcomes of a tree are numbered 1, 2 and so
on in order of first use.

With --no-names, the title, the comment, and the names of nodes, information
sets and outcomes are written empty. So two files that 'same --no-names' finds
the same get the same text.

With --check, nothing is written but the names of files that differ from their
canonical texts, and the status is 1 if there are any. With --write, each of
these files is replaced by its canonical text. A file that is refused, or whose
text would be too long to be read again, stays as it is. A folder means the game
files in it and below it, as for hash.

A file that breaks the format is refused: nothing is written, and standard error
has one line, such as E4 at 40..43, with a code and the place in bytes from 0;
with --check or --write, the line begins with the name of the file, and the
other files are still read. The status is the worst of all files: 0, 2, 4 or 5,
or 1 with --check.

Examples:
  gamefile canon game.efg > canonical.efg
  gamefile canon --check games";

/// What is said of `canon` with `--check` and `--write`.
pub const CHECK_AND_WRITE: &str = "\
error: '--check' cannot be used with '--write'

For more information, try 'gamefile help canon'.
";

/// What is said of `canon --write` without the names of files.
pub const WRITE_TO_NOTHING: &str = "\
error: '--write' needs files: standard input cannot be replaced

For more information, try 'gamefile help canon'.
";

/// What is said of `canon --quiet` alone.
pub const QUIET_ALONE: &str = "\
error: '--quiet' needs '--check' or '--write'

For more information, try 'gamefile help canon'.
";

/// What is said of `canon` with several files.
pub const SEVERAL_TEXTS: &str = "\
error: 'canon' writes the text of one file: for several, give '--check' or '--write'

For more information, try 'gamefile help canon'.
";

pub const CHECK: &str = "Say whether game files are valid, and what they hold";

pub const AFTER_CHECK: &str = "\
Reads the whole file, and writes tree or table. A file that breaks the format is
refused: nothing is written, and standard error has one line, such as
E4 at 40..43, with a code and the place in bytes from 0.

With several files or a folder, each file has a line that begins with its name,
such as game.efg: tree, or on standard error game.efg: E4 at 40..43, and the
other files are still read. The status is the worst of all files: 0, 2, 4 or 5.
A folder means the game files in it and below it, as for hash.

With --explain, the line of a refusal begins with the file, the line and the
column, and ends with what is wrong. The line of the file follows, with marks
under the place, and sometimes a hint.

Examples:
  gamefile check game.nfg
  gamefile check --explain games";

pub const TABLE: &str = "Write the strategic form of a game";

pub const REDUCED: &str = "Leave out choices at sets that the player has ruled out";

pub const AFTER_TABLE: &str = "\
Writes a tree as a strategic file in canonical text. A strategy is an action at
each information set of its player, in order of first use; its label has their
numbers, counted from 1, such as 1-2, and is empty if the player has no set.
Each profile of strategies has its exact expected payoffs. A strategic file is
written as canon writes it. Every file that canon refuses is refused.

A tree with more than 1,048,576 profiles has no table, and standard error says
'too many profiles'. Nor does a tree have one if its expected payoffs at some
profile cannot be computed within 127 bits; standard error names the first such
profile, as in 'overflow at profile 2'. Nothing is written then, and the
status is 2.

With --reduced, a strategy has * in place of an action at each information set
that the player's own earlier choices rule out, such as 1-*. Strategies that are
then equal become one. The limit of profiles still counts all strategies.

Example:
  gamefile table game.efg > game.nfg";

pub const SAME: &str = "Say whether two game files mean the same game";

pub const FIRST: &str = "The first game file";

pub const SECOND: &str = "The second game file";

pub const ZERO: &str = "End lines with NUL, and write names as they are";

pub const FILES: &str = "Game files and folders; standard input if none is named";

pub const FILES_FROM: &str = "Read the names of files and folders from FILE";

pub const NULL: &str = "Names in FILE end with NUL instead of a newline";

pub const QUIET: &str = "Show no progress";

pub const HASH: &str = "Write a hash of each game file";

pub const AFTER_HASH: &str = "\
Writes one line for each file, as sha256sum does: the SHA-256 digest of its
canonical text, two spaces, and its name. So files of the same game have the
same hash. Standard input has the name '-'. As sha256sum does, it escapes a
backslash or an end of line in a name, and begins the line with a backslash;
with --zero nothing is escaped, and each line ends with NUL.

A folder means all files in it and below it whose names end in .efg or .nfg, in
upper or lower case, except hidden ones. Each folder is ordered by the bytes of
the names in it, and the files below a folder stand where its name does. Links
are followed, but no folder below it is visited twice.

A file that is refused or cannot be read gets no line here, but one on standard
error, such as game.efg: E4 at 40..43, and the other files are still read. The
status is the worst of all files: 0, 2, 4 or 5.

With --no-names, the hash is that of the text that 'canon --no-names' writes.
With --files-from, FILE has a name on each line, and '-' is standard input.

Examples:
  gamefile hash games > hashes.txt
  find games -name '*.efg' -print0 | gamefile hash --files-from - -0";

pub const DUPLICATES: &str = "List game files that are the same game";

pub const AFTER_DUPLICATES: &str = "\
Writes the groups of two or more files that are the same game: a name on each
line, and an empty line between two groups. Two files are in the same group if
'hash' writes the same hash for both, as it does if 'same' finds them the same.
Files and folders are read, and names are written, as by 'hash', also with
--zero. A file that a folder holds under two names is read once. Groups come in
the order of their first files.

A file that is refused or cannot be read is in no group. Standard error has a
line for it, such as game.efg: E4 at 40..43, and the other files are still read.
The status is 0 if no two files are the same, and 1 if some are; if any file
fails, the highest of 2, 4 and 5.

With --no-names, files are the same if 'same --no-names' finds them so.

Example:
  gamefile duplicates games";

pub const MAP: &str = "Also list which numbers correspond";

pub const NO_NAMES: &str = "Ignore titles, comments and names, but not labels";

pub const AFTER_SAME: &str = "\
Writes same, with status 0, or different, with status 1. Two trees are the same
if renumbering the information sets and outcomes of one gives the other. Two
tables are the same if their titles, comments, players, strategy labels and the
payoffs at each profile agree. A tree and a table are never the same. If a file
is refused or cannot be read, its line on standard error begins with A: or B:,
but not with --explain, which names the file, and the status is 2 or 4.

With --map, a line 'set P X Y' follows for each information set of player P (0
is chance): X is its number in A, and Y its number in B. A line 'outcome X Y'
follows for each outcome.

With --no-names, the title, the comment, and the names of nodes, information
sets and outcomes do not count. The labels of players, actions and strategies
do. It cannot be given with --map.

Example:
  gamefile same --map old.efg new.efg";
