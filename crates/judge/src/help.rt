// What the program says of itself.
pub const HELP: &str = "\
Judges whether cases can be moved by a plan.

Reads lines of hexadecimal from standard input: a schema, a plan of it, and then cases (docs/FORMATS.md).
Prints a verdict line for each case. 0000 behind the case number is a move, else the refusal and its layer
stand there, as 2306: refusal 35, layer 6 (docs/REFUSALS.md).

Example: the lines

01000107010102FF010203FF010304FF010400
0201050203FF
030000000700040101FF0201FF0102FF0103FF
030000000800050101FF0201FF0102FF0202FF0103FF

give

04000000072306000003
04000000080000FFFFFF
";
