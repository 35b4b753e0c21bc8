// The moves of a process, copied: a process of its own with the same meaning.
ghost use Rattle.std.specs.Prelude.{◌≡◌, ◌<◌, ◌≤◌, ◌^◌, length};
ghost use Rattle.process.specs.Meaning.{Limits};
ghost use Rattle.movetable.specs.Once.{limits_once};
ghost use Rattle.movetable.specs.Lists.{moves_in_all, no_moves, proc_of};

use crate::lists::MoveLists;
use process::{Move, Process, moves_of};

// So many states and their moves, with room for ROOM moves in all.
#[derive(Drop)]
pub struct MoveTable<const ROOM: usize> {
    states: u8,
    lists: MoveLists<ROOM>,
    ghost count: { length lists ≡ states },
    ghost limits: { Limits (proc_of lists) } by { limits_once (proc_of lists) },
}

// How many moves a process has in all: a table of it must have room for them.
pub fn moves_in_all<P: Process>(p: &P) -> usize
    ensures { result ≡ moves_in_all (P.meaning p.now) }
{
    (0..p.states()).map(|s| usize::from(p.degree(s))).sum()
}

impl<const ROOM: usize> MoveTable<ROOM> {
    ghost use Rattle.movetable.specs.Table.{meaning_of};

    // One state without moves.
    pub fn new() -> Self
        requires { ROOM < 2 ^ 16 }
        ensures { meaning_of result ≡ no_moves }
    {
        let mut lists = MoveLists::new();
        lists.add_state();
        MoveTable { states: 1, lists }
    }

    // The moves of the lists, which are those of a process that keeps the limits.
    pub fn of_lists(lists: MoveLists<ROOM>) -> Self
        requires { Limits (proc_of lists) }
        ensures { meaning_of result ≡ proc_of lists.entry }
    {
        MoveTable {
            states: lists.states(),
            lists,
        }
    }

    // The moves of a process that has no more than there is room for.
    pub fn of<P: Process>(p: &P) -> Self
        requires small { ROOM < 2 ^ 16 }
        requires room { moves_in_all (P.meaning p.now) ≤ ROOM }
        ensures { meaning_of result ≡ P.meaning p.now }
    {
        let mut lists = MoveLists::new();
        for s in 0..p.states() {
            lists.add_state();
            for m in moves_of(p, s) {
                lists.push(m);
            }
        }
        MoveTable::of_lists(lists)
    }
}

impl<const ROOM: usize> Process for MoveTable<ROOM> {
    ghost use Rattle.movetable.specs.Table.{meaning_of};

    ghost meaning = { meaning_of };

    ghost limits = { λ t. t.limits };

    fn states(&self) -> u8 {
        self.states
    }

    fn degree(&self, s: u8) -> u8 {
        self.lists.moves_of(s).len() as u8
    }

    fn move_at(&self, s: u8, k: u8) -> Option<Move> {
        self.lists.moves_of(s).get(k as usize).copied()
    }
}
