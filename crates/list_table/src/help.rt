// What the program says about itself.
use command::Program;

pub(crate) const PROGRAM: Program = Program {
    name: b"list_table",
    usage: b"list_table [--explain] [FILE]",
};

pub(crate) const HELP: &[u8] = b"\
usage: list_table [--explain] [FILE]
Lists the records of the steering table in FILE: a line for each, with its place, its kind and its
body in hex, and then their count. Of a table that is refused only `refused N at P` is printed, with
the refusal's number and its place. No FILE, or -, is standard input.

  --explain   says a refusal in words too, in one line on standard error
  -h, --help  prints this
  --version   prints the version
  --          ends the options: a word behind it is FILE

Statuses:
  0  the table was listed
  1  it was refused, something could not be read or written, or a word was bad

Refusals; places count from 0, the table's first byte:
   8  the table is over 4096 bytes; the place is 0
   9  no record has this kind, whose byte is at the place
  10  the record is cut short, its kind byte at the place
";
