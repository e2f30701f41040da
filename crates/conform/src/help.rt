// What the program says of itself.
pub const HELP: &str = "\
Judges cases twice, by looking at where they stand and by replaying their histories, and compares.

Reads what `judge` reads: a schema line, a plan line, and then case lines (docs/FORMATS.md).
Prints for each case both verdicts and whether they agree, and at the end how many do.

Example: the lines

01000107010102FF010203FF010304FF010400
0201050203FF
030000000700040101FF0201FF0102FF0103FF

give

04000000072306000003 04000000072306FFFFFF agree
1 cases: 1 agree, 0 differ
";
