//! Worked game files, and texts that are made of them.

/// A strategic file in payoff version.
pub const SELTEN: &[u8] =
    b"NFG 1 R \"Selten\" { \"Player 1\" \"Player 2\" } { 3 2 } 1 1 0 2 0 2 1 1 0 3 2 0";

/// The same in outcome version.
pub const SELTEN_BY_OUTCOMES: &[u8] = b"NFG 1 D \"Selten\" { \"Player 1\" \"Player 2\" }
{ { \"1\" \"2\" \"3\" } { \"1\" \"2\" } } \"\"
{ { \"a\" 1, 1, } { \"b\" 0, 2 } { \"c\" 0 2 } { \"d\" 1 1 } { \"e\" 0 3 } { \"f\" 2 0 } }
1 2 3 4 5 6";

pub const SELTEN_TEXT: &[u8] = b"NFG 1 R \"Selten\" { \"Player 1\" \"Player 2\" }
{ { \"1\" \"2\" \"3\" } { \"1\" \"2\" } }
\"\"

1 1
0 2
0 2
1 1
0 3
2 0
";

/// A table with the null outcome, and the same table by payoffs.
pub const NULL_OUTCOME: &[u8] = b"NFG 1 R \"z\" { \"A\" \"B\" } { 2 1 } { { \"u\" 1 2 } } 1 0";

pub const NULL_OUTCOME_BY_PAYOFFS: &[u8] = b"NFG 1 R \"z\" { \"A\" \"B\" } { 2 1 } 1 2 0 0";

pub const NULL_OUTCOME_RENAMED: &[u8] = b"NFG 1 R \"y\" { \"A\" \"B\" } { 2 1 } 1 2 0 0";

pub const NULL_OUTCOME_TEXT: &[u8] = b"NFG 1 R \"z\" { \"A\" \"B\" }
{ { \"1\" \"2\" } { \"1\" } }
\"\"

1 2
0 0
";

/// A tree and a table of nobody.
pub const NOBODY: &[u8] = b"EFG 2 R \"\" { } t \"\" 0";

pub const NOBODY_TEXT: &[u8] = b"EFG 2 R \"\" { }\n\"\"\n\nt \"\" 0\n";

pub const NOBODY_TABLE: &[u8] = b"NFG 1 R \"\" { } { }";

pub const NOBODY_TABLE_TEXT: &[u8] = b"NFG 1 R \"\" { }\n{ }\n\"\"\n\n\n";

/// A set of chance met twice on a path, each number in another spelling.
pub const FIVE: &[u8] = b"EFG 2 R \"five\" { \"A\" }
c \"\" 9 \"n\" { \"h\" 0.5 \"t\" 1/2 } 0
p \"\" 1 7 \"i\" { \"L\" } 0
c \"\" 9 \"n\" { \"h\" 1/2 \"t\" 0.50 } 0
t \"\" 0
t \"\" 0
p \"\" 1 3 \"j\" { \"R\" } 4 \"w\" { 1e-1 }
t \"\" 4
";

/// The same game by other numbers.
pub const FIVE_BY_OTHER_NUMBERS: &[u8] = b"EFG 2 R \"five\" { \"A\" }
c \"\" 2 \"n\" { \"h\" 0.5 \"t\" 1/2 } 0
p \"\" 1 3 \"i\" { \"L\" } 0
c \"\" 2 \"n\" { \"h\" 1/2 \"t\" 0.50 } 0
t \"\" 0
t \"\" 0
p \"\" 1 8 \"j\" { \"R\" } 2 \"w\" { 1e-1 }
t \"\" 2
";

/// The same with a comment.
pub const FIVE_WITH_COMMENT: &[u8] = b"EFG 2 R \"five\" { \"A\" } \"k\"
c \"\" 2 \"n\" { \"h\" 0.5 \"t\" 1/2 } 0
p \"\" 1 3 \"i\" { \"L\" } 0
c \"\" 2 \"n\" { \"h\" 1/2 \"t\" 0.50 } 0
t \"\" 0
t \"\" 0
p \"\" 1 8 \"j\" { \"R\" } 2 \"w\" { 1e-1 }
t \"\" 2
";

pub const FIVE_TEXT: &[u8] = b"EFG 2 R \"five\" { \"A\" }
\"\"

c \"\" 1 \"n\" { \"h\" 1/2 \"t\" 1/2 } 0
p \"\" 1 1 \"i\" { \"L\" } 0
c \"\" 1 0
t \"\" 0
t \"\" 0
p \"\" 1 2 \"j\" { \"R\" } 1 \"w\" { 1/10 }
t \"\" 1
";

/// The text of the game by other numbers, if these stay.
pub const FIVE_TEXT_BY_OTHER_NUMBERS: &[u8] = b"EFG 2 R \"five\" { \"A\" }
\"\"

c \"\" 2 \"n\" { \"h\" 1/2 \"t\" 1/2 } 0
p \"\" 1 3 \"i\" { \"L\" } 0
c \"\" 2 0
t \"\" 0
t \"\" 0
p \"\" 1 8 \"j\" { \"R\" } 2 \"w\" { 1/10 }
t \"\" 2
";

/// What is written about the tree and the same tree by other numbers.
pub const FIVE_MAP: &[u8] = b"same\nset 0 9 2\nset 1 7 3\nset 1 3 8\noutcome 4 2\n";

/// A player's set with two nodes, and two sets that have one each.
pub const ONE_SET: &[u8] = b"EFG 2 R \"s\" { \"A\" }
c \"\" 1 \"n\" { \"h\" 1/2 \"t\" 1/2 } 0
p \"\" 1 1 \"i\" { \"L\" } 0 t \"\" 0 p \"\" 1 1 0 t \"\" 0";

pub const TWO_SETS: &[u8] = b"EFG 2 R \"s\" { \"A\" }
c \"\" 1 \"n\" { \"h\" 1/2 \"t\" 1/2 } 0
p \"\" 1 1 \"i\" { \"L\" } 0 t \"\" 0 p \"\" 1 2 \"i\" { \"L\" } 0 t \"\" 0";

/// An outcome at two leaves, and an outcome at each.
pub const ONE_OUTCOME: &[u8] =
    b"EFG 2 R \"s\" { \"A\" } p \"\" 1 1 \"i\" { \"L\" \"R\" } 0 t \"\" 1 \"x\" { 5 } t \"\" 1";

pub const TWO_OUTCOMES: &[u8] = b"EFG 2 R \"s\" { \"A\" }
p \"\" 1 1 \"i\" { \"L\" \"R\" } 0 t \"\" 1 \"x\" { 5 } t \"\" 2 \"x\" { 5 }";

pub const ONE_OUTCOME_TABLE: &[u8] =
    b"NFG 1 R \"s\" { \"A\" }\n{ { \"1\" \"2\" } }\n\"\"\n\n5\n5\n";

/// The first with other names, with another action, and with both.
pub const ONE_OUTCOME_RENAMED: &[u8] =
    b"EFG 2 R \"q\" { \"A\" } p \"w\" 1 1 \"k\" { \"L\" \"R\" } 0 t \"\" 1 \"v\" { 5 } t \"\" 1";

pub const OTHER_ACTION: &[u8] =
    b"EFG 2 R \"s\" { \"A\" } p \"\" 1 1 \"i\" { \"l\" \"R\" } 0 t \"\" 1 \"x\" { 5 } t \"\" 1";

/// The null outcome, and an outcome that pays nothing.
pub const NOTHING: &[u8] = b"EFG 2 R \"s\" { \"A\" } t \"\" 0";

pub const ZERO: &[u8] = b"EFG 2 R \"s\" { \"A\" } t \"\" 1 \"\" { 0 }";

pub const ZERO_TABLE: &[u8] = b"NFG 1 R \"s\" { \"A\" }\n{ { \"\" } }\n\"\"\n\n0\n";

/// A title with quotation marks and a backslash, and one of any bytes.
pub const QUOTED: &[u8] = b"EFG 2 R \"say \\\"hi\\\" \\a\" { } t \"\" 0";

pub const QUOTED_TEXT: &[u8] = b"EFG 2 R \"say \\\"hi\\\" \\a\" { }\n\"\"\n\nt \"\" 0\n";

pub const ANY_BYTES: &[u8] = b"EFG 2 R \"a\n\xffb\" { } t \"\" 0";

pub const ANY_BYTES_TEXT: &[u8] = b"EFG 2 R \"a\n\xffb\" { }\n\"\"\n\nt \"\" 0\n";

/// Outcomes at an inner node and at leaves, and a player who never moves.
pub const BONUS: &[u8] = b"EFG 2 R \"g\" { \"A\" \"B\" }
c \"\" 1 \"n\" { \"h\" 1/2 \"t\" 1/2 } 0
p \"\" 1 1 \"i\" { \"L\" \"R\" } 1 \"bonus\" { 1 0 }
t \"\" 2 \"x\" { 2 0 }
t \"\" 0
p \"\" 1 1 0
t \"\" 0
t \"\" 3 \"y\" { 3 1 }
";

pub const BONUS_TABLE: &[u8] = b"NFG 1 R \"g\" { \"A\" \"B\" }
{ { \"1\" \"2\" } { \"\" } }
\"\"

3/2 0
2 1/2
";

/// A sum on the way that does not fit.
pub const OVERFLOWING: &[u8] = b"EFG 2 R \"o\" { \"A\" }
p \"\" 1 1 \"i\" { \"a\" \"b\" } 1 \"x\" { -1 }
t \"\" 0
p \"\" 1 2 \"j\" { \"c\" } 2 \"y\" { 170141183460469231731687303715884105727 }
t \"\" 3 \"z\" { 1 }
";

/// A payoff of 5 where chance never leads, and one more below it.
pub const UNLIKELY: &[u8] = b"EFG 2 R \"q\" { \"A\" }
c \"\" 1 \"n\" { \"a\" 1 \"b\" 0 } 0
t \"\" 1 \"x\" { 1 }
c \"\" 2 \"k\" { \"e\" 1 } 2 \"y\" { 5 }
t \"\" 1
";

/// The same, with the greatest number in place of 5.
pub const UNLIKELY_AND_GREAT: &[u8] = b"EFG 2 R \"q\" { \"A\" }
c \"\" 1 \"n\" { \"a\" 1 \"b\" 0 } 0
t \"\" 1 \"x\" { 1 }
c \"\" 2 \"k\" { \"e\" 1 } 2 \"y\" { 170141183460469231731687303715884105727 }
t \"\" 1
";

/// A set that the player's own first move may rule out.
pub const RULED_OUT: &[u8] = b"EFG 2 R \"r\" { \"A\" }
p \"\" 1 1 \"i\" { \"a\" \"b\" } 0
t \"\" 1 \"x\" { 1 }
p \"\" 1 2 \"j\" { \"c\" \"d\" } 0
t \"\" 2 \"y\" { 2 }
t \"\" 3 \"z\" { 3 }
";

pub const RULED_OUT_TABLE: &[u8] = b"NFG 1 R \"r\" { \"A\" }
{ { \"1-1\" \"1-2\" \"2-1\" \"2-2\" } }
\"\"

1
1
2
3
";

pub const RULED_OUT_REDUCED: &[u8] = b"NFG 1 R \"r\" { \"A\" }
{ { \"1-*\" \"2-1\" \"2-2\" } }
\"\"

1
2
3
";

/// The files that are cut, and whose canonical text is canonised again.
pub static FILES: [&[u8]; 19] = [
    SELTEN,
    SELTEN_BY_OUTCOMES,
    NULL_OUTCOME,
    NULL_OUTCOME_BY_PAYOFFS,
    NOBODY,
    NOBODY_TABLE,
    FIVE,
    FIVE_BY_OTHER_NUMBERS,
    ONE_SET,
    TWO_SETS,
    ONE_OUTCOME,
    TWO_OUTCOMES,
    NOTHING,
    ZERO,
    QUOTED,
    ANY_BYTES,
    BONUS,
    OVERFLOWING,
    RULED_OUT,
];
