// What the program says of itself.
pub const HELP: &str = "\
Shows schemas.

Reads schema lines from standard input, each a schema record in hexadecimal (docs/FORMATS.md).
Prints for each line its outline, or why it is refused (docs/REFUSALS.md).

Example: the lines

0100020502FF010103FF010204FF010102
0100

give

line 1: schema version 2, 5 elements, 1 sync edges
    0 AND split
    1   activity 1
    2 bar, branch 1
    3   activity 2
    4 AND join
      sync edge 1 -> 2
line 2: refused 1, layer 1, place none, id none
";
