// What the program says of itself.
pub const HELP: &str = "\
Shows what plans make of a schema.

Reads lines of hexadecimal from standard input: a schema, and then plans of it (docs/FORMATS.md).
Prints for each plan the changed schema, as an outline and as a line, or why the plan is refused
(docs/REFUSALS.md).

Example: the lines

01000101010100
0201030901FF

give

plan 1: schema version 2, 2 elements, 0 sync edges
    0 activity 1
    1 activity 9
010002020101010900
";
