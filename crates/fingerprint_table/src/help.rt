// What the program says about itself.
use command::Program;

pub(crate) const PROGRAM: Program = Program {
    name: b"fingerprint_table",
    usage: b"fingerprint_table [--explain] [-s SALT] [FILE]",
};

pub(crate) const HELP: &[u8] = b"\
usage: fingerprint_table [--explain] [-s SALT] [FILE]
Prints the fingerprint of a steering table, its ECHO digest of 256 bits under a salt, as 64 hex
digits. FILE holds sixteen salt bytes and then the table, or with -s the table alone. Of a table
that is refused only `refused N at P` is printed, with the refusal's number and its place. No FILE,
or -, is standard input.

  --explain   says a refusal in words too, in one line on standard error
  -s SALT     the salt, 32 hex digits of either case
  -h, --help  prints this
  --version   prints the version
  --          ends the options: a word behind it is FILE

Statuses:
  0  the fingerprint was printed
  1  the table was refused, something could not be read or written, or a word was bad

Refusals; places count from 0, the table's first byte, and not from the salt:
   2  the salt is not 16 bytes; the place is 0
   8  the table is over 4096 bytes; the place is 0
   9  no record has this kind, whose byte is at the place
  10  the record is cut short, its kind byte at the place
";
