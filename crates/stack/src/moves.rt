// What an element does to a pass over a row.
ghost use Rattle.std.specs.Prelude.{◌≡◌, ◌+◌, ◌<◌, ◌≤◌, length};
ghost use Rattle.stack.specs.Moves.{reached, blocks_after, followed};

use crate::Stack;

// The state after it, and what becomes of the innermost open block: it stays, a block opens in it, another
// takes its place, or it closes. A value, and not a closure that acts, since a layout asks which move it is; and the state
// stands in each, since a struct of a state and what becomes of the block would have each move built of two values. The pass
// itself, a loop of three lines, is written where it is made: a function for it would ask that the moves can be called.
#[derive(Clone, Copy)]
pub enum Move<S, B> {
    Stay(S),
    Open(S, B),
    Turn(S, B),
    Close(S),
}

impl<B: Copy> Stack<B> {
    // Carries a move out on the open blocks, the innermost on top, and answers the state that it reaches.
    pub fn follow<S>(&mut self, next: Move<S, B>) -> S
        ensures state { result ≡ reached next }
        ensures blocks { self.new ≡ followed next self.old }
        ensures room { length self.old < 128 → self.new ≡ blocks_after next self.old }
        ensures depth { length self.new ≤ length self.old + 1 }
    {
        match next {
            Move::Stay(state) => state,
            Move::Open(state, block) => {
                self.push(block);
                state
            }
            Move::Turn(state, block) => {
                self.pop();
                self.push(block);
                state
            }
            Move::Close(state) => {
                self.pop();
                state
            }
        }
    }
}
