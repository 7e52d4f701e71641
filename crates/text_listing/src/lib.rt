// The listing of a tree's block. A tree stays a slice of known length, as the calls lend it.
#![tactic(auto)]

ghost use Rattle.std.specs.Prelude.{◌≡◌, ◌+◌, ◌*◌, ◌≤◌, ◌<◌, length};
ghost use Rattle.rules.specs.Listing.{kind_name, entry_numbers, entry_line, entry_lines, listing};
ghost use Rattle.rules.specs.Calls.{entry_count};
ghost use Rattle.text_writing.specs.Writing.{Wrote};

use rules::{ACTIVITY, CHOICE, PARALLEL, SEQUENCE, SILENT};

// The name of a kind: five bytes, six for a loop.
fn name_of(kind: u8) -> &'static [u8]
    ensures { (result.now ≡ kind_name kind) × (length result.now ≤ 6) }
{
    match kind {
        SILENT => b" tau ",
        ACTIVITY => b" act ",
        CHOICE => b" xor ",
        SEQUENCE => b" seq ",
        PARALLEL => b" par ",
        _ => b" loop ",
    }
}

#[tactic(auto, using(crate::proofs::Lines::named_text))]
fn write_name(kind: u8, out: &mut [u8], at: usize) -> usize
    requires { at + 6 ≤ length out.old }
    ensures { Wrote 6 out.old at (kind_name kind) out.new result }
{
    text_writing::text(out, at, name_of(kind))
}

fn entry_numbers(argument: u8, size: u8, out: &mut [u8], at: usize) -> usize
    requires { at + 8 ≤ length out.old }
    ensures { Wrote 8 out.old at (entry_numbers argument size) out.new result }
{
    let argued = text_writing::number(out, at, argument as usize, 3);
    let spaced = text_writing::byte(out, argued, b' ');
    let sized = text_writing::number(out, spaced, size as usize, 3);
    text_writing::byte(out, sized, b'\n')
}

// The line of entry v: at most 17 bytes.
fn entry_line(tree: &[u8], v: usize, out: &mut [u8], at: usize) -> usize
    requires { (length tree.now ≡ 512) × (v < entry_count) × (at + 17 ≤ length out.old) }
    ensures { Wrote 17 out.old at (entry_line tree.now v) out.new result }
{
    let e = v * 4;
    let numbered = text_writing::number(out, at, v, 3);
    let named = write_name(tree[e], out, numbered);
    entry_numbers(tree[e + 1], tree[e + 2], out, named)
}

fn entry_lines(tree: &[u8], nodes: usize, out: &mut [u8], at: usize) -> usize
    requires { (length tree.now ≡ 512) × (nodes ≤ entry_count) × (at + 17 * nodes ≤ length out.old) }
    ensures { Wrote (17 * nodes) out.old at (entry_lines nodes tree.now 0) out.new result }
{
    let mut next = at;
    for v in 0..nodes {
        next = entry_line(tree, v, out, next);
    }
    next
}

// The listing of a tree's block with its number of nodes: at most 2,169 bytes.
pub fn write_listing(tree: &[u8], nodes: usize, out: &mut [u8]) -> usize
    requires { (length tree.now ≡ 512) × (nodes ≤ entry_count) × (2169 ≤ length out.old) }
    ensures { Wrote 2169 out.old 0 (listing tree.now nodes) out.new result }
{
    let named = text_writing::text(out, 0, b"nodes ");
    let counted = text_writing::number(out, named, nodes, 3);
    let ended = text_writing::byte(out, counted, b'\n');
    entry_lines(tree, nodes, out, ended)
}
