// What is held back behind a line, and what goes out at one. In a run of syncs only the first can stay, so at most one is
// held, and it waits for a line that is not a return.
ghost use Rattle.std.specs.Prelude.{◌≡◌, ◌+◌, ◌^◌, ◌<◌};
ghost use Rattle.compact.specs.Machine.{nothing, start, silent, flushed, entered, left, waiting, alone, together, spent, step, Ready};

use walk::{Cycles, Instructions, Measure};

// Of the invocations around the innermost one, a bit each, the innermost lowest: has it spawned since its start or last
// sync? Has the innermost one? Does a sync wait? And the sum of the costs before that sync and that of their instructions,
// 0 and 0 where there are none.
#[derive(Clone, Copy)]
pub struct State {
    pub around: u64,
    pub spawned: bool,
    pub sync: bool,
    pub held: Cycles,
    pub carried: Instructions,
}

// What a line tells the step: its kind, its value, and its instructions where it is a cost.
#[derive(Clone, Copy)]
pub struct Item {
    pub kind: u8,
    pub cycles: Cycles,
    pub instructions: Instructions,
}

// What goes out at a line, in this order: a cost unless it is 0, its instructions unless they are 0, a sync, the line
// itself. And what is held back then.
#[derive(Clone, Copy)]
pub struct Given {
    pub cost: Cycles,
    pub instructions: Instructions,
    pub sync: bool,
    pub line: bool,
    pub next: State,
}

impl State {
    // Nothing is held.
    fn nothing(around: u64, spawned: bool) -> State
        ensures { result ≡ nothing around spawned }
    {
        State {
            around,
            spawned,
            sync: false,
            held: Cycles(0),
            carried: Instructions(0),
        }
    }

    // Before the first line.
    pub(crate) fn new() -> State
        ensures { result ≡ start }
    {
        State::nothing(0, false)
    }

    // Nothing goes out, and this is held back.
    fn keep(self) -> Given
        ensures { result ≡ silent self }
    {
        Given {
            cost: Cycles(0),
            instructions: Instructions(0),
            sync: false,
            line: false,
            next: self,
        }
    }

    // All that is held goes out, then the line itself.
    fn flush(self, around: u64, spawned: bool, sync: bool) -> Given
        ensures { result ≡ flushed around spawned sync self }
    {
        Given {
            cost: self.held,
            instructions: self.carried,
            sync,
            line: true,
            next: State::nothing(around, spawned),
        }
    }

    // A call, or a spawn.
    fn enter(self, spawns: bool) -> Given
        requires { self.around < 2 ^ 63 }
        ensures { result ≡ entered spawns self }
    {
        let bit = u64::from(spawns | self.spawned);
        self.flush(self.around * 2 + bit, false, self.sync)
    }

    // A return.
    fn leave(self) -> Given
        ensures { result ≡ left self }
    {
        self.flush(self.around / 2, self.around % 2 == 1, false)
    }

    // A sync.
    fn wait(self) -> Given
        ensures { result ≡ waiting self }
    {
        let next = State {
            spawned: false,
            sync: self.spawned | self.sync,
            ..self
        };
        next.keep()
    }

    // A cost that starts a new line: all that was held goes out.
    fn start_cost(self, v: Cycles, i: Instructions) -> Given
        ensures { result ≡ alone v i self }
    {
        Given {
            cost: self.held,
            instructions: self.carried,
            sync: self.sync,
            line: false,
            next: State {
                sync: false,
                held: v,
                carried: i,
                ..self
            },
        }
    }

    // A cost that is held together with those directly before it, each measure by itself.
    fn add_cost(self, v: Cycles, i: Instructions) -> Given
        requires { (self.held.0 + v.0 < 2 ^ 64) × (self.carried.0 + i.0 < 2 ^ 64) }
        ensures { result ≡ together v i self }
    {
        let next = State {
            sync: false,
            held: self.held.plus(v),
            carried: self.carried.plus(i),
            ..self
        };
        next.keep()
    }

    // A cost with its instructions: it merges only while both sums fit a value.
    fn spend(self, v: Cycles, i: Instructions) -> Given
        requires { Ready self }
        ensures { result ≡ spent v i self }
    {
        if self.sync || v.0 > 4294967295 - self.held.0 || i.0 > 4294967295 - self.carried.0 {
            return self.start_cost(v, i);
        }
        self.add_cost(v, i)
    }

    // A line of any kind. A 07 line went with its cost.
    pub(crate) fn step(self, item: Item) -> Given
        requires { Ready self }
        ensures { result ≡ step item.kind item.cycles item.instructions self }
    {
        match item.kind {
            7 => self.keep(),
            6 => self.spend(item.cycles, item.instructions),
            5 => self.leave(),
            4 => self.wait(),
            3 => self.enter(true),
            2 => self.enter(false),
            _ => self.flush(self.around, self.spawned, self.sync),
        }
    }
}
