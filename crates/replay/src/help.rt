// What the program says of itself.
pub const HELP: &str = "\
Replays cases on a schema, entry by entry.

Reads lines of hexadecimal from standard input: a schema, and then cases (docs/FORMATS.md).
Prints for each entry which nodes are activated after it, and for each case how its nodes stand at the end,
or why an entry is refused (docs/REFUSALS.md).

Example: the lines

01000107010102FF010203FF010304FF010400
030000000700040101FF0201FF0102FF0103FF

give

    0 START 1: activated -
    1 END 1: activated 2 3
    2 START 2: activated 3
    3 START 3: activated -
case 7: runs, 4 entries; activated -; running 2 3; completed 1; skipped -; not activated 4
";
