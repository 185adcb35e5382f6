// What the program says about itself.
use command::Program;

pub(crate) const PROGRAM: Program = Program {
    name: b"echosum",
    // Where more is told stands in the same brackets.
    usage: b"echosum [-1] [-b BITS] [-s SALT] [-c] [FILE...]; see echosum --help",
};

pub(crate) const HELP: &[u8] = b"\
usage: echosum [-1] [-b BITS] [-s SALT] [--tag] [-z] [FILE...]
  or:  echosum -c [-1] [-b BITS] [-s SALT] [OPTION...] [FILE...]
Prints the ECHO digest of each FILE, or checks the files that are listed in each FILE.
No FILE, or -, is standard input.

  -1                    single-pipe; double-pipe where not given
  -b BITS               length of the digest, 128 to 512 by eights; 256 where not given
  -s SALT               32 hex digits; zeros where not given
      --tag             print lines that name bits, mode and salt
  -z, --zero            end each line with a zero byte, and escape no name
  -c, --check           read lines of digests from each FILE and check the files that they name
  -h, --help            print this
      --version         print the version
      --verdict-fd=N    write the status to descriptor N, 3 to 9, as tools/run asks
      --                each word behind this is a FILE

With -c only:
      --quiet           don't print OK for a file that matches
      --status          print no results and no warnings: the status tells
      --strict          fail where a line is improperly formatted
      --ignore-missing  pass over files that are missing

With -c, a line with a tag has bits, mode and salt of its own. One without has as many bits as its
digits say, those of -b where that is given, and the mode and the salt of -1 and -s.

Status: 0 where all is well. 1 where a word is bad, a file or list can't be read, or the output
can't be written; with -c, where a file does not match too, or where a list has none that does.
";
