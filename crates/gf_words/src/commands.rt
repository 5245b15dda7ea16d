//! The commands, and their arguments.

use crate::help;

/// How an argument is given.
#[derive(Clone, Copy)]
pub enum Form {
    /// By its name, as `--map`.
    Flag,
    /// By its name or this letter, as `--null` or `-0`.
    FlagOrLetter(char),
    /// By its name and a value, which help calls this, as `--files-from FILE`.
    Option(&'static str),
    /// By a value that may be left out.
    Optional,
    /// By a value that has to be there.
    Required,
    /// By any number of values, each of which help calls this.
    Many(&'static str),
}

/// An argument of a command, with what help says about it.
#[derive(Clone, Copy)]
pub struct Argument {
    pub name: &'static str,
    pub form: Form,
    pub about: &'static str,
    /// The arguments that cannot stand beside it.
    pub excludes: &'static [&'static str],
    /// The arguments that it needs beside it.
    pub needs: &'static [&'static str],
}

/// A command, with what help says about it.
#[derive(Clone, Copy)]
pub struct Entry {
    pub name: &'static str,
    pub about: &'static str,
    pub after: &'static str,
    pub arguments: &'static [Argument],
}

const EXPLAIN: Argument = Argument {
    name: "explain",
    form: Form::Flag,
    about: help::EXPLAIN,
    excludes: &[],
    needs: &[],
};

const FILE: Argument = Argument {
    name: "FILE",
    form: Form::Optional,
    about: help::FILE,
    excludes: &[],
    needs: &[],
};

const NO_NAMES: Argument = Argument {
    name: "no-names",
    form: Form::Flag,
    about: help::NO_NAMES,
    excludes: &[],
    needs: &[],
};

const NO_NAMES_OR_MAP: Argument = Argument {
    name: "no-names",
    form: Form::Flag,
    about: help::NO_NAMES,
    excludes: &["map"],
    needs: &[],
};

const CHECK: Argument = Argument {
    name: "check",
    form: Form::Flag,
    about: help::CANON_CHECK,
    excludes: &[],
    needs: &[],
};

const WRITE: Argument = Argument {
    name: "write",
    form: Form::Flag,
    about: help::CANON_WRITE,
    excludes: &[],
    needs: &[],
};

const REDUCED: Argument = Argument {
    name: "reduced",
    form: Form::Flag,
    about: help::REDUCED,
    excludes: &[],
    needs: &[],
};

const MAP: Argument = Argument {
    name: "map",
    form: Form::Flag,
    about: help::MAP,
    excludes: &[],
    needs: &[],
};

const A: Argument = Argument {
    name: "A",
    form: Form::Required,
    about: help::FIRST,
    excludes: &[],
    needs: &[],
};

const B: Argument = Argument {
    name: "B",
    form: Form::Required,
    about: help::SECOND,
    excludes: &[],
    needs: &[],
};

const FILES_FROM: Argument = Argument {
    name: "files-from",
    form: Form::Option("FILE"),
    about: help::FILES_FROM,
    excludes: &["FILES"],
    needs: &[],
};

const NULL: Argument = Argument {
    name: "null",
    form: Form::FlagOrLetter('0'),
    about: help::NULL,
    excludes: &["FILES"],
    needs: &["files-from"],
};

const ZERO: Argument = Argument {
    name: "zero",
    form: Form::FlagOrLetter('z'),
    about: help::ZERO,
    excludes: &[],
    needs: &[],
};

const QUIET: Argument = Argument {
    name: "quiet",
    form: Form::Flag,
    about: help::QUIET,
    excludes: &[],
    needs: &[],
};

const FILES: Argument = Argument {
    name: "FILES",
    form: Form::Many("FILE|FOLDER"),
    about: help::FILES,
    excludes: &[],
    needs: &[],
};

const CANON_FILES: Argument = Argument {
    name: "FILES",
    form: Form::Many("FILE|FOLDER"),
    about: help::CANON_FILES,
    excludes: &[],
    needs: &[],
};

/// The commands, in the order in which help names them.
pub static COMMANDS: [Entry; 6] = [
    Entry {
        name: "canon",
        about: help::CANON,
        after: help::AFTER_CANON,
        arguments: &[CHECK, WRITE, NO_NAMES, EXPLAIN, QUIET, CANON_FILES],
    },
    Entry {
        name: "check",
        about: help::CHECK,
        after: help::AFTER_CHECK,
        arguments: &[EXPLAIN, QUIET, FILES],
    },
    Entry {
        name: "table",
        about: help::TABLE,
        after: help::AFTER_TABLE,
        arguments: &[REDUCED, EXPLAIN, FILE],
    },
    Entry {
        name: "same",
        about: help::SAME,
        after: help::AFTER_SAME,
        arguments: &[MAP, NO_NAMES_OR_MAP, EXPLAIN, A, B],
    },
    Entry {
        name: "hash",
        about: help::HASH,
        after: help::AFTER_HASH,
        arguments: &[NO_NAMES, FILES_FROM, NULL, ZERO, EXPLAIN, QUIET, FILES],
    },
    Entry {
        name: "duplicates",
        about: help::DUPLICATES,
        after: help::AFTER_DUPLICATES,
        arguments: &[NO_NAMES, FILES_FROM, NULL, ZERO, EXPLAIN, QUIET, FILES],
    },
];
