// What the program says about itself.
use command::Program;

pub(crate) const PROGRAM: Program = Program {
    name: b"write_table",
    usage: b"write_table [FILE]",
};

pub(crate) const HELP: &[u8] = b"\
usage: write_table [FILE]
Makes the steering table of the lines in FILE, as list_table prints them, and writes its bytes to
standard output. No FILE, or -, is standard input. A line is `PLACE KIND BODY`, a record: its place,
any digits, which are not looked at; its kind, two hex digits; and its body in hex. The last line is
`records N` with their number. Hex digits are small, one space stands between two fields, and every
line has its end. Of a text with a bad line only `bad line N` is printed, for the first, from 1.

  -h, --help        prints this
  --version         prints the version
  --verdict-fd=N    writes the status to descriptor N, 3 to 9, as tools/run asks
  --                ends the options: a word behind it is FILE

Statuses:
  0  the table was written
  1  a line was bad, something could not be read or written, or a word was bad

A line is bad that says no record and no count; whose record no table of 4096 bytes would hold;
whose count is another; that stands behind the count; where the count is missing, the one behind
the last; and that has no end within the first 65536 bytes.
";
