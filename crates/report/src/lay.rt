// A piece of text laid into lent room at a place. Each leaf answers the place behind its piece.
ghost use Rattle.std.specs.Prelude.{[], ◌∷◌, ◌+◌, ◌≤◌, ◌<◌, length, take, drop};
ghost use Rattle.digits.specs.Decimal.{decimal};
ghost use Rattle.report.specs.Room.{Lays};

use crate::copy;

// One character.
pub fn character(out: &mut [u8], at: usize, c: u8) -> usize
    requires { at < length out.old }
    ensures { Lays at (c ∷ []) out.old result out.new }
{
    out[at] = c;
    at + 1
}

// A text as it stands.
pub fn text(out: &mut [u8], at: usize, piece: &[u8]) -> usize
    requires { at + length piece.now ≤ length out.old }
    ensures { Lays at piece.now out.old result out.new }
{
    let end = at + piece.len();
    copy(&mut out[at..end], piece);
    end
}

// The n characters that stand in the room from an earlier place on, once more.
pub fn again(out: &mut [u8], at: usize, from: usize, n: usize) -> usize
    requires { (from + n ≤ at) × (at + n ≤ length out.old) }
    ensures { Lays at (take n (drop from out.old)) out.old result out.new }
{
    let (before, room) = out.split_at_mut(at);
    copy(&mut room[0..n], &before[from..from + n]);
    at + n
}

// A number in decimal.
pub fn decimal(out: &mut [u8], at: usize, x: u64) -> usize
    requires { at + length (decimal x) ≤ length out.old }
    ensures { Lays at (decimal x) out.old result out.new }
{
    let end = at + digits::decimal::size(x);
    digits::decimal::put_figures(&mut out[at..end], x);
    end
}
