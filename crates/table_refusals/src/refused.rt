// A refused table.
use super::explaining::explain;
use command::{Failed, Program};
use lines::Line;
use steering::Refusal;

#[derive(Clone, Copy)]
pub struct Refused<'a> {
    pub refusal: Refusal,
    pub table: &'a [u8],
    // The salt that the table stands under, where it stands under one.
    pub salt: Option<&'a [u8]>,
}

impl Refused<'_> {
    // Prints the refusal's line, and then says it in words where that is asked for.
    pub fn tell(&self, rt: &HostRuntime, program: &Program, explains: bool) -> Result<(), Failed> {
        let mut line = Line::<64>::new();
        line.text(b"refused ")
            .decimal(u64::from(self.refusal.number()));
        line.text(b" at ")
            .decimal(self.refusal.place() as u64)
            .text(b"\n");
        program.print(rt, line.bytes())?;
        if explains {
            explain(rt, program, self);
        }
        Ok(())
    }
}
