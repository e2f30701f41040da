// What the program says of itself.
pub const HELP: &str = "\
Judges batches whose verdicts are known.

Reads batches from standard input, one after the other: a schema line, a plan line, and then case lines, each
with the verdict line that is expected below it; a line # ends the batch (docs/FORMATS.md).
Prints each verdict that is not as expected with the number of the line, and at the end how many are. Its exit
status is 1 if any is not, or if a line is missing.

Example: the lines

01000107010102FF010203FF010304FF010400
0201050203FF
030000000700040101FF0201FF0102FF0103FF
04000000072306000003
#

give

1 verdicts, 1 as expected
";
