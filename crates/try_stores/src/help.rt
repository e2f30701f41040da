// What the program says of itself.
pub const HELP: &str = "\
Takes a store and a worklist of each kind through calls.

Reads calls from standard input, one a line: start I, end I, choose I B and leave I add an entry, purge I ..
purges these nodes, clear empties all; offer I and withdraw I do so, want I .. brings the worklists in step.
Prints for each call what came of it, and what stores and worklists then hold. A line that is no call ends the
program with status 1.

Example: the lines

start 1
offer 5

give

start 1
  log: done; START 1
  table: done; START 1
  board: -; queue: -
offer 5
  log: done; START 1
  table: done; START 1
  board: 5; queue: 5
";
