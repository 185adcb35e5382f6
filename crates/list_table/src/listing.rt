// The lines of a table.
use super::help::PROGRAM;
use command::Failed;
use lines::Line;
use table_refusals::Refused;

fn print_count(rt: &HostRuntime, count: usize) -> Result<(), Failed> {
    let mut line = Line::<64>::new();
    line.text(b"records ").decimal(count as u64).text(b"\n");
    PROGRAM.print(rt, line.bytes())
}

fn print_record(rt: &HostRuntime, place: usize, kind: &[u8], body: &[u8]) -> Result<(), Failed> {
    let mut line = Line::<128>::new();
    line.decimal(place as u64).text(b" ").hex(kind);
    line.text(b" ").hex(body).text(b"\n");
    PROGRAM.print(rt, line.bytes())
}

// Of a table that is not refused each place that is gone to is read.
#[tactic(auto, using(crate::proofs::Laws::Records::goes_on, crate::proofs::Laws::Records::in_table, crate::proofs::Laws::Records::less_left))]
fn print_records(rt: &HostRuntime, table: &[u8]) -> Result<(), Failed> {
    let mut at = 0;
    while let Ok(Some((_, next))) = steering::read_at(table, at) {
        let body = at + 1;
        print_record(rt, at, &table[at..body], &table[body..next])?;
        at = next;
    }
    Ok(())
}

// A table that is refused has the line of its refusal alone.
pub(crate) fn list(rt: &HostRuntime, table: &[u8], explains: bool) -> Result<(), Failed> {
    match steering::count(table) {
        Ok(count) => {
            print_records(rt, table)?;
            print_count(rt, count)
        }
        Err(refusal) => Refused {
            refusal,
            table,
            salt: None,
        }
        .tell(rt, &PROGRAM, explains),
    }
}
