// How the line of a digest is written: with a tag or without, and with a line end or a zero byte behind it.
ghost use Rattle.std.specs.Prelude.{◌≤◌, ◌≡◌, ◌++◌, length, take};
ghost use Rattle.echosum.specs.Listed.{mode_text};
ghost use Rattle.echosum.specs.Style.{back_of, end_of, front_of, line_of, tag_of};

use echo::Mode;
use lines::Line;

#[derive(Clone, Copy)]
pub(crate) struct Style {
    pub is_tagged: bool,
    pub is_zero_ended: bool,
    // what a tag names
    pub mode: Mode,
    pub bits: u64,
    pub salt: [u8; 16],
}

fn mode_text(mode: Mode) -> &'static [u8]
    ensures { result.now ≡ mode_text mode }
{
    match mode {
        Mode::SinglePipe => b"-single-",
        Mode::DoublePipe => b"-double-",
    }
}

// ECHO-BITS-MODE-SALT, a space and a bracket.
#[tactic(auto, unfolding(crate::specs::Style::tag_of))]
fn put_tag<const N: usize>(line: &mut Line<N>, style: Style)
    ensures { line.new ≡ take N (line.old ++ tag_of style.bits style.mode style.salt) }
{
    line.text(b"ECHO-")
        .decimal(style.bits)
        .text(mode_text(style.mode))
        .hex(&style.salt)
        .text(b" (");
}

// What stands in front of the name.
#[tactic(auto, unfolding(crate::specs::Style::front_of))]
fn put_front<const N: usize>(line: &mut Line<N>, style: Style, digest: &[u8])
    ensures { line.new ≡ take N (line.old ++ front_of style digest.now) }
{
    if style.is_tagged {
        put_tag(line, style);
    } else {
        line.hex(digest).text(b"  ");
    }
}

#[tactic(auto, unfolding(crate::specs::Style::end_of))]
fn end(is_zero: bool) -> &'static [u8]
    ensures { result.now ≡ end_of is_zero }
{
    if is_zero { b"\0" } else { b"\n" }
}

// What stands behind it.
#[tactic(auto, unfolding(crate::specs::Style::back_of))]
fn put_back<const N: usize>(line: &mut Line<N>, style: Style, digest: &[u8])
    ensures { line.new ≡ take N (line.old ++ back_of style digest.now) }
{
    let end = end(style.is_zero_ended);
    if style.is_tagged {
        line.text(b") = ").hex(digest).text(end);
    } else {
        line.text(end);
    }
}

// The line of a digest of at most sixty-four bytes. A name is escaped where a line end would end the line. (That a salt has sixteen bytes is
// said since the proof finds it in no other way.)
pub(crate) fn put_line<const N: usize>(line: &mut Line<N>, style: Style, digest: &[u8], name: &[u8])
    ensures { length digest.now ≤ 64 → length style.salt ≡ 16 → line.new ≡ take N (line.old ++ line_of style digest.now name.now) }
{
    let mut front = Line::<130>::new();
    put_front(&mut front, style, digest);
    if style.is_zero_ended {
        line.text(front.bytes()).text(name);
    } else {
        line.named(front.bytes(), name, b"");
    }
    put_back(line, style, digest);
}
