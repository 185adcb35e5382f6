// What goes to standard error that no other program says, a line each.
use super::help::PROGRAM;
use command::Failed;
use lines::Line;

pub(crate) fn say_too_long(rt: &HostRuntime, name: &[u8]) {
    PROGRAM.say(rt, b": ", name, b": over 2^61 - 21 bytes\n");
}

pub(crate) fn say_bad_bits(rt: &HostRuntime, bits: u64) -> Failed {
    let mut line = Line::<64>::new();
    line.text(b"echosum: bad bits ").decimal(bits).text(b"\n");
    let _ = host::say(rt, line.bytes());
    Failed
}

// An option that does not go with the check of lists, or without it.
pub(crate) fn say_without(rt: &HostRuntime, option: &[u8], why: &[u8]) -> Failed {
    let mut line = Line::<128>::new();
    line.text(b"echosum: the ")
        .text(option)
        .text(why)
        .text(b" when verifying checksums\n");
    let _ = host::say(rt, line.bytes());
    Failed
}

// ---- of a list

pub(crate) fn say_endless(rt: &HostRuntime, list: &[u8]) {
    PROGRAM.say(rt, b": ", list, b": a line of over 1048576 bytes\n");
}

pub(crate) fn say_no_lines(rt: &HostRuntime, list: &[u8]) {
    PROGRAM.say(
        rt,
        b": ",
        list,
        b": no properly formatted checksum lines found\n",
    );
}

pub(crate) fn say_none_verified(rt: &HostRuntime, list: &[u8]) {
    PROGRAM.say(rt, b": ", list, b": no file was verified\n");
}

// A number of things that went wrong, in words for one and for several.
fn say_count(rt: &HostRuntime, count: u64, one: &[u8], several: &[u8]) {
    if count == 0 {
        return;
    }
    let mut line = Line::<128>::new();
    line.text(b"echosum: WARNING: ")
        .decimal(count)
        .text(if count == 1 { one } else { several });
    let _ = host::say(rt, line.bytes());
}

pub(crate) fn say_improper(rt: &HostRuntime, count: u64) {
    say_count(
        rt,
        count,
        b" line is improperly formatted\n",
        b" lines are improperly formatted\n",
    );
}

pub(crate) fn say_unread(rt: &HostRuntime, count: u64) {
    say_count(
        rt,
        count,
        b" listed file could not be read\n",
        b" listed files could not be read\n",
    );
}

pub(crate) fn say_mismatched(rt: &HostRuntime, count: u64) {
    say_count(
        rt,
        count,
        b" computed checksum did NOT match\n",
        b" computed checksums did NOT match\n",
    );
}
