// The line of a table's fingerprint.
use super::help::PROGRAM;
use command::Failed;
use lines::Line;
use table_refusals::Refused;

fn print_hex(rt: &HostRuntime, bytes: &[u8]) -> Result<(), Failed> {
    let mut line = Line::<65>::new();
    line.hex(bytes).text(b"\n");
    PROGRAM.print(rt, line.bytes())
}

// A table that is refused has the line of its refusal.
pub(crate) fn print_under(
    rt: &HostRuntime,
    salt: &[u8],
    table: &[u8],
    explains: bool,
) -> Result<(), Failed> {
    let mut out = [0u8; 32];
    match steering::fingerprint(salt, table, &mut out) {
        Ok(()) => print_hex(rt, &out),
        Err(refusal) => Refused {
            refusal,
            table,
            salt: Some(salt),
        }
        .tell(rt, &PROGRAM, explains),
    }
}
