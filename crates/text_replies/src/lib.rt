// The line of a refusal and the line of a verdict.
#![tactic(auto)]

ghost use Rattle.std.specs.Prelude.{◌+◌, ◌≤◌, length};
ghost use Rattle.rules.specs.Listing.{refusal_line, verdict_line};
ghost use Rattle.text_writing.specs.Writing.{Wrote};

// A refusal's line: at most 21 bytes. `refused` is the number of the reason: to ask for a `Reason` would ask more of a caller.
pub fn write_refusal(refused: u8, place: usize, out: &mut [u8]) -> usize
    requires { 21 ≤ length out.old }
    ensures { Wrote 21 out.old 0 (refusal_line refused place) out.new result }
{
    let named = text_writing::text(out, 0, b"refused ");
    let numbered = text_writing::number(out, named, refused as usize, 3);
    let spaced = text_writing::text(out, numbered, b" at ");
    let placed = text_writing::number(out, spaced, place, 5);
    text_writing::byte(out, placed, b'\n')
}

// A verdict's line: at most 13 bytes.
pub fn write_verdict(episode: usize, fits: bool, out: &mut [u8], at: usize) -> usize
    requires { at + 13 ≤ length out.old }
    ensures { Wrote 13 out.old at (verdict_line episode fits) out.new result }
{
    let numbered = text_writing::number(out, at, episode, 5);
    if fits {
        return text_writing::text(out, numbered, b" fits\n");
    }
    text_writing::text(out, numbered, b" misfit\n")
}
