// Whether the text fits its room, before anything is written. A length may be past 64 bits, so none is added up: what
// a piece takes is taken off the room.
ghost use Rattle.std.specs.Prelude.{◌≡◌, ◌+◌, ◌<◌, MatchOption};
ghost use Rattle.line.specs.At.{value_at};
ghost use Rattle.folded.specs.Measure.{LineAsks, LineLeaves, Asks, Leaves};

// How many rows are open, and how much of the room is left.
#[derive(Clone, Copy)]
struct Measured {
    depth: usize,
    left: usize,
}

impl Measured {
    // Takes joined names and the characters behind them off the room: nothing comes back where they do not fit.
    fn print(self, names: usize, cost: usize) -> Option<Measured>
        ensures { MatchOption result (self.left < names + cost)
            (λ b. (b.depth ≡ self.depth) × (b.left + (names + cost) ≡ self.left)) }
    {
        let left = self.left.checked_sub(names)?.checked_sub(cost)?;
        Some(Measured { left, ..self })
    }
}

// What a cost line costs.
pub fn cost_at(trace: &[u8], n: usize) -> u64
    ensures { result ≡ value_at trace.now n }
{
    line::value_at(trace, n) as u64
}

// Takes what a line prints off the room: nothing comes back where it does not fit. What the joined names of an open row
// and of those around it leave of the whole room stands in `t`, for each open row, the root's first.
fn take_line(
    trace: &[u8],
    n: usize,
    names: &[&[u8]],
    whole: usize,
    t: &mut [usize],
    a: Measured,
) -> Option<Measured>
    requires { LineAsks trace.now n names.now whole t.old a }
    ensures { LineLeaves trace.now n names.now whole t.old a result t.new }
{
    let depth = a.depth;
    match line::kind_at::<line::Base>(trace, n) {
        6 => {
            let size = 2 + digits::decimal::size(cost_at(trace, n));
            a.print(whole - t[depth - 1], size)
        }
        5 => Some(Measured {
            depth: depth - 1,
            ..a
        }),
        2 | 3 => {
            let name = names[line::site_at(trace, n) as usize];
            t[depth] = t[depth - 1].saturating_sub(1).saturating_sub(name.len());
            Some(Measured {
                depth: depth + 1,
                ..a
            })
        }
        _ => Some(a),
    }
}

// Whether the text of a trace fits a room of so many characters.
pub(crate) fn fits(trace: &[u8], lines: usize, names: &[&[u8]], whole: usize) -> bool
    requires { Asks trace.now lines names.now }
    ensures { Leaves trace.now lines names.now whole result }
{
    let mut t = [0usize; 64];
    t[0] = whole.saturating_sub(names[0].len());
    let mut a = Measured {
        depth: 1,
        left: whole,
    };
    for n in 0..lines {
        match take_line(trace, n, names, whole, &mut t, a) {
            Some(b) => a = b,
            None => return false,
        }
    }
    true
}
