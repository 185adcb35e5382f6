// The mode: how much of the square the chaining variable takes (section 5).
#[derive(Clone, Copy, PartialEq, Eq, Debug)]
pub enum Mode {
    DoublePipe,
    SinglePipe,
}
