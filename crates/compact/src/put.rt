// The lines that go out, laid into the output one behind the other. Each leaf answers the place behind its lines.
ghost use Rattle.std.specs.Prelude.{◌≡◌, true, cond, [], ◌+◌, ◌*◌, ◌≤◌, length};
ghost use Rattle.digits.specs.Digits.{small, small_form};
ghost use Rattle.line.specs.declared.Frame.TheVariants.{Sync};
ghost use Rattle.line.specs.Read.{width, line_at};
ghost use Rattle.line.specs.Write.{writable, write_chars};
ghost use Rattle.trace.specs.Written.{text_of};
ghost use Rattle.report.specs.Room.{Lays};
ghost use Rattle.walk.specs.Stands.{Whole};
ghost use Rattle.compact.specs.Compact.{most_value, carrying, summed};
ghost use Rattle.compact.specs.Machine.{pair_size, size_of, pieces, Fitting};

use crate::step::Given;
use line::{Frame, LINE};
use report::lay;
use walk::{Cycles, Instructions};

// The line of a frame that has one.
#[inline(always)]
fn frame(out: &mut [u8], at: usize, frame: Frame) -> usize
    requires { (writable frame ≡ true) × (at + width ≤ length out.old) }
    ensures { Lays at (write_chars frame) out.old result out.new }
{
    let chars = line::write_line::<line::Base>(frame).unwrap();
    lay::text(out, at, &chars)
}

// The line of a cost's instructions, unless they are 0.
fn carrying(out: &mut [u8], at: usize, i: Instructions) -> usize
    requires { (i.0 ≤ most_value) × (at + length (text_of (carrying i.0 [])) ≤ length out.old) }
    ensures { Lays at (text_of (carrying i.0 [])) out.old result out.new }
{
    if i.0 == 0 {
        return at;
    }
    frame(out, at, Frame::Instructions(i.0 as u32))
}

// A cost line with its instructions behind it, unless the cost is 0.
fn cost(out: &mut [u8], at: usize, v: Cycles, i: Instructions) -> usize
    requires { (v.0 ≤ most_value) × ((i.0 ≤ most_value) × (at + length (text_of (summed v.0 i.0 [])) ≤ length out.old)) }
    ensures { Lays at (text_of (summed v.0 i.0 [])) out.old result out.new }
{
    if v.0 == 0 {
        return at;
    }
    let end = frame(out, at, Frame::Cost(v.0 as u32));
    carrying(out, end, i)
}

// A sync line, where one goes out.
fn sync(out: &mut [u8], at: usize, goes: bool) -> usize
    requires { at + length (cond goes (write_chars Sync) []) ≤ length out.old }
    ensures { Lays at (cond goes (write_chars Sync) []) out.old result out.new }
{
    if !goes {
        return at;
    }
    frame(out, at, Frame::Sync)
}

// A digit with a small letter for a capital one; any other character as it is (`to_ascii_lowercase` would turn G to Z too).
fn small(c: u8) -> u8
    ensures { result ≡ small c }
{
    match c {
        b'A'..=b'F' => c + 32,
        _ => c,
    }
}

// Fills a part with characters in small letters.
fn small_letters(to: &mut [u8], from: &[u8])
    requires { length to.old ≡ length from.now }
    ensures { to.new ≡ small_form from.now }
{
    for (i, c) in from.iter().enumerate() {
        to[i] = small(*c);
    }
}

// A text in small letters.
fn small_text(out: &mut [u8], at: usize, text: &[u8]) -> usize
    requires { at + length text.now ≤ length out.old }
    ensures { Lays at (small_form text.now) out.old result out.new }
{
    let end = at + text.len();
    small_letters(&mut out[at..end], text);
    end
}

// Line n of the trace in small letters, where it goes out itself.
fn itself(trace: &[u8], n: usize, out: &mut [u8], at: usize, goes: bool) -> usize
    requires { Whole trace.now n × (at + length (cond goes (small_form (line_at trace.now n)) []) ≤ length out.old) }
    ensures { Lays at (cond goes (small_form (line_at trace.now n)) []) out.old result
        out.new }
{
    if !goes {
        return at;
    }
    let from = LINE * n;
    small_text(out, at, &trace[from..from + LINE])
}

// All that goes out at line n of the trace.
pub(crate) fn lines(trace: &[u8], n: usize, out: &mut [u8], at: usize, g: Given) -> usize
    requires { Whole trace.now n × (Fitting g × (at + length (pieces g (small_form (line_at trace.now n))) ≤ length out.old)) }
    ensures { Lays at (pieces g (small_form (line_at trace.now n))) out.old result
        out.new }
{
    let a = cost(out, at, g.cost, g.instructions);
    let b = sync(out, a, g.sync);
    itself(trace, n, out, b, g.line)
}

// How many lines a cost with its instructions is.
fn cost_size(v: Cycles, i: Instructions) -> usize
    ensures { (result ≡ pair_size v.0 i.0) × (result ≤ 2) }
{
    if v.0 == 0 {
        0
    } else {
        1 + usize::from(i.0 != 0)
    }
}

// How many lines go out at a line.
pub(crate) fn size(g: Given) -> usize
    ensures { result ≡ size_of g }
{
    let cost = cost_size(g.cost, g.instructions);
    cost + (usize::from(g.sync) + usize::from(g.line))
}
