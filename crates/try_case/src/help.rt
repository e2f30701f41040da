// What the program says of itself.
pub const HELP: &str = "\
Takes one case through its life, call by call.

Reads from standard input a schema line (docs/FORMATS.md) and then calls, one a line:
open N (a case number), start I, finish I, choose I B, leave I, again I (an id, a branch), or a case line, which
is loaded. Prints for each call what came of it, which activities are then on offer, and the history. A line
that is no call ends the program with status 1.

Example: the lines

01000101010100
open 7
start 1
start 1

give

open 7: done; offered 1; history -
start 1: done; offered -; history START 1
start 1: refused 31, layer 6, place none, id 1; offered -; history START 1
";
